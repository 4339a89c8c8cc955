// One block of a station file: its words and its sum, what it must be, what it holds, and how it is made.
#![tactic(auto)]

ghost use Rattle.std.specs.Prelude.{◌≡◌, ◌+◌, ◌*◌, ◌<◌, ◌≤◌, ◌↔◌, length, drop, ◌==◌, Ok};
ghost use Rattle.refusals.specs.Refusal.{judged};
ghost use Rattle.areas.specs.Area.{overwrite, Written};
ghost use Rattle.blocks.specs.Block.{word, number_of, count_of, content, used, sum_due, sum_right, all_zero, kind_due, count_right, use_right};
ghost use Rattle.blocks.specs.Block.{block_refusal, two_bytes, block_of, RightBlock};

use refusals::{Reason, Refusal};

// The bytes of a block, the most that its content holds, and where the content begins.
pub const BYTES: usize = 512;

pub const CONTENT: usize = 504;

const HEAD: usize = 6;

// The words of a block: its number, kind and count first, its sum last.
const NUMBER: usize = 0;

const KIND: usize = 1;

const COUNT: usize = 2;

const SUM: usize = 255;

// The blocks of tables, and what the last of them holds.
pub const TABLE_BLOCKS: usize = 5;

const LAST_OF_TABLES: usize = 289;

// Word k of a block, two bytes, low first. A block is lent as a part of a file, a slice: so clauses say its length, and no array type.
#[tactic(auto, unfolding(crate::specs::Block::word))]
fn word_at(block: &[u8], k: usize) -> u16
    requires { (length block.now ≡ 512) × (k < 256) }
    ensures whole { result ≡ word block.now k }
{
    u16::from_le_bytes([block[2 * k], block[2 * k + 1]])
}

// The sum of the 255 words before the last, wrapping at 65,536.
fn words_sum(block: &[u8]) -> u16
    requires { length block.now ≡ 512 }
    ensures whole { result ≡ sum_due block.now }
{
    let mut sum: u16 = 0;
    for k in 0..SUM {
        sum = sum.wrapping_add(word_at(block, k));
    }
    sum
}

// Whether the last word is the sum of the others.
#[tactic(auto, unfolding(crate::specs::Block::sum_right))]
fn sum_right(block: &[u8]) -> bool
    requires { length block.now ≡ 512 }
    ensures whole { result ≡ sum_right block.now }
{
    word_at(block, SUM) == words_sum(block)
}

// Whether a block has the number i.
#[tactic(auto, unfolding(crate::specs::Block::number_of))]
fn number_right(block: &[u8], i: usize) -> bool
    requires { length block.now ≡ 512 }
    ensures whole { result ≡ (number_of block.now == i) }
{
    usize::from(word_at(block, NUMBER)) == i
}

// The kind of block i: 1 tables, 2 plan. It is a word of the block, and the contract says the number: so no enum.
pub fn kind_due(i: usize) -> u16
    ensures whole { result ≡ kind_due i }
{
    if i < TABLE_BLOCKS { 1 } else { 2 }
}

// Whether block i of so many may have a count.
#[tactic(auto, unfolding(crate::specs::Block::count_right))]
fn count_right(blocks: usize, i: usize, count: usize) -> bool
    requires { i < blocks }
    ensures whole { result ≡ count_right blocks i count }
{
    if i < TABLE_BLOCKS - 1 {
        count == CONTENT
    } else if i == TABLE_BLOCKS - 1 {
        count == LAST_OF_TABLES
    } else if i + 1 == blocks {
        1 <= count && count <= CONTENT
    } else {
        count == CONTENT
    }
}

// Whether a block's content is zero past a count.
fn zero_past(block: &[u8], count: usize) -> bool
    requires { length block.now ≡ 512 }
    ensures whole { result ≡ all_zero (drop count (content block.now)) }
{
    block[HEAD..HEAD + CONTENT]
        .iter()
        .skip(count)
        .all(|&v| v == 0)
}

// Whether block i of so many has its kind, a count that it may have, and zeros behind.
#[tactic(auto, unfolding(crate::specs::Block::use_right, crate::specs::Block::kind_of, crate::specs::Block::count_of, crate::specs::Block::filling))]
fn use_right(block: &[u8], blocks: usize, i: usize) -> bool
    requires { (length block.now ≡ 512) × (i < blocks) }
    ensures whole { result ≡ use_right blocks i block.now }
{
    let count = usize::from(word_at(block, COUNT));
    word_at(block, KIND) == kind_due(i) && count_right(blocks, i, count) && zero_past(block, count)
}

// Refusals 52 to 54 of block i of so many. It is accepted exactly when it is a block as `make_block` makes it, with a count that block i may have.
#[tactic(auto, using(crate::proofs::Made::answered_right), unfolding(crate::specs::Block::block_refusal))]
pub fn judge_block(block: &[u8], blocks: usize, i: usize) -> Result<(), Refusal>
    requires { (length block.now ≡ 512) × (i < blocks) }
    ensures whole { result ≡ judged (block_refusal blocks i block.now) }
    ensures exactly { (result ≡ Ok tt) ↔ RightBlock blocks i block.now }
{
    if !sum_right(block) {
        return Err(Refusal::from(Reason::BlockSum));
    }
    if !number_right(block, i) {
        return Err(Refusal::from(Reason::BlockNumber));
    }
    if !use_right(block, blocks, i) {
        return Err(Refusal::from(Reason::BlockUse));
    }
    Ok(())
}

// Copies what a block holds into an area at a place; the place after it.
pub fn put_used(block: &[u8], area: &mut [u8], at: usize) -> usize
    requires { (length block.now ≡ 512) × (count_of block.now ≤ 504) × (at + length (used block.now) ≤ length area.old) }
    ensures { Written area.old area.new at (used block.now) result }
{
    let end = HEAD + usize::from(word_at(block, COUNT));
    areas::copy_in(&block[HEAD..end], area, at)
}

// Sets word k of a block, two bytes, low first.
fn put_two_bytes(block: &mut [u8], k: usize, value: u16)
    requires { (length block.old ≡ 512) × (k < 256) }
    ensures whole { block.new ≡ overwrite block.old (2 * k) (two_bytes value) }
{
    areas::copy_in(&value.to_le_bytes(), block, 2 * k);
}

// Makes a block: its number, its kind, how much it holds, what it holds, zeros behind, and the sum.
pub fn make_block(block: &mut [u8], number: u16, kind: u16, held: &[u8])
    requires { (length block.old ≡ 512) × (length held.now ≤ 504) }
    ensures whole { block.new ≡ block_of number kind held.now }
{
    put_two_bytes(block, NUMBER, number);
    put_two_bytes(block, KIND, kind);
    put_two_bytes(block, COUNT, held.len() as u16);
    let end = areas::copy_in(held, block, HEAD);
    areas::clear_from(block, end);
    let sum = words_sum(block);
    put_two_bytes(block, SUM, sum);
}
