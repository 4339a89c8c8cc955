// Writing station files: the blocks of accepted tables and an accepted plan, put into an area.
#![tactic(auto)]

ghost use Rattle.std.specs.Prelude.{◌≡◌, ◌+◌, ◌*◌, ◌≤◌, ◌<◌, length};
ghost use Rattle.refusals.specs.Refusal.{judged};
ghost use Rattle.areas.specs.Area.{overwrite, most_words};
ghost use Rattle.blocks.specs.Block.{kind_due, block_of};
ghost use Rattle.writing.specs.Writing.{part, block_due, block_count, file_length, write_refusal, WriteOutcome, write_outcome};

use blocks::{BYTES, CONTENT, TABLE_BLOCKS};
use refusals::{Reason, Refusal};

// How many blocks the file of a plan of so many words has.
#[tactic(auto, unfolding(crate::specs::Writing::block_count))]
fn count_blocks(words: usize) -> usize
    requires { words ≤ most_words }
    ensures { result ≡ block_count words }
{
    TABLE_BLOCKS + (words + (CONTENT - 1)) / CONTENT
}

// Part k of a list that is cut into parts of 504, the last as long as what is left.
fn part_of(list: &[u8], k: usize) -> &[u8]
    requires { 504 * k ≤ length list.now }
    ensures { result.now ≡ part list.now k }
{
    let rest = &list[CONTENT * k..];
    &rest[..CONTENT.min(rest.len())]
}

// Puts block i, which holds part k of a list, where it stands in the area.
fn put_part(list: &[u8], k: usize, i: usize, area: &mut [u8])
    requires { (504 * k ≤ length list.now) × (i < 38) × (512 * i + 512 ≤ length area.old) }
    ensures { area.new ≡ overwrite area.old (512 * i) (block_of i (kind_due i) (part list.now k)) }
{
    let start = BYTES * i;
    let end = start + BYTES;
    blocks::make_block(
        &mut area[start..end],
        i as u16,
        blocks::kind_due(i),
        part_of(list, k),
    );
}

// Puts block i of the file of tables and a plan where it stands in the area.
#[tactic(auto, unfolding(crate::specs::Writing::block_due, crate::specs::Writing::block_count, crate::specs::Writing::file_length))]
fn put_block(tables: &[u8], plan: &[u8], i: usize, area: &mut [u8])
    requires { (length tables.now ≡ 2305) × (length plan.now ≤ most_words) × (i < block_count (length plan.now))
        × (file_length (length plan.now) ≤ length area.old) }
    ensures { area.new ≡ overwrite area.old (512 * i) (block_due tables.now plan.now i) }
{
    if i < TABLE_BLOCKS {
        put_part(tables, i, i, area);
    } else {
        put_part(plan, i - TABLE_BLOCKS, i, area);
    }
}

// Refusals 1 to 8, 11 to 14 of the tables and the plan, then 74 for an area of so many bytes, shorter than the file.
fn judge_writing(tables: &[u8], plan: &[u8], area: usize) -> Result<(), Refusal>
    ensures { result ≡ judged (write_refusal tables.now plan.now area) }
{
    plans::judge_plan(tables, plan)?;
    if area < BYTES * count_blocks(plan.len()) {
        Err(Refusal::from(Reason::ShortArea))
    } else {
        Ok(())
    }
}

// Writes the station file of tables and a plan into an area, zeros after: the file's length. Refusals 1 to 8, 11 to 14, then 74 for an area shorter
// than the file, leave the area as it is.
pub fn write_station(tables: &[u8], plan: &[u8], area: &mut [u8]) -> Result<usize, Refusal>
    ensures whole { ◌≡◌ {A = WriteOutcome} (record { answer = result; area = area.new })
        (write_outcome tables.now plan.now area.old) }
{
    judge_writing(tables, plan, area.len())?;
    let count = count_blocks(plan.len());
    for i in 0..count {
        put_block(tables, plan, i, area);
    }
    let size = BYTES * count;
    areas::clear_from(area, size);
    Ok(size)
}
