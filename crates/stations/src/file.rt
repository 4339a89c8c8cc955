// A station file by its blocks: its form, and what its blocks hold.
ghost use Rattle.std.specs.Prelude.{◌≡◌, ◌-◌, ◌≤◌, ◌<◌, length};
ghost use Rattle.std.proofs.Math.Option.{none};
ghost use Rattle.refusals.specs.Refusal.{judged};
ghost use Rattle.areas.specs.Area.{overwrite};
ghost use Rattle.stations.specs.File.{blocks, block, length_right, held, form_refusal, held_refusal, StationOutcome, unless_refused};

use refusals::{Reason, Refusal};

// A file has 6 to 38 blocks.
const FEWEST: usize = 6;

const MOST: usize = 38;

// The words of the longest plan that the blocks behind those of tables hold.
pub const LONGEST: usize = (MOST - blocks::TABLE_BLOCKS) * blocks::CONTENT;

// How many blocks a file has.
#[tactic(auto, unfolding(crate::specs::File::blocks))]
pub fn count_blocks(file: &[u8]) -> usize
    ensures { result ≡ blocks file.now }
{
    file.len() / blocks::BYTES
}

// Block i of a file.
#[tactic(auto, unfolding(crate::specs::File::blocks))]
fn block_at(file: &[u8], i: usize) -> &[u8]
    requires { i < blocks file.now }
    ensures { result.now ≡ block file.now i }
{
    let start = blocks::BYTES * i;
    &file[start..start + blocks::BYTES]
}

// Whether a file is 6 to 38 whole blocks long.
#[tactic(auto, unfolding(crate::specs::File::length_right))]
pub fn length_right(file: &[u8]) -> bool
    ensures whole { result ≡ length_right file.now }
{
    let count = count_blocks(file);
    file.len() % blocks::BYTES == 0 && FEWEST <= count && count <= MOST
}

// Refusals 51 to 54: the length, then block by block.
pub fn judge_form(file: &[u8]) -> Result<(), Refusal>
    ensures whole { result ≡ judged (form_refusal file.now) }
{
    if !length_right(file) {
        return Err(Refusal::from(Reason::FileLength));
    }
    let count = count_blocks(file);
    for i in 0..count {
        blocks::judge_block(block_at(file, i), count, i)?;
    }
    Ok(())
}

// Copies what the blocks from the first up to an end hold into an area; how many bytes that is.
pub fn gather(file: &[u8], first: usize, end: usize, area: &mut [u8]) -> usize
    requires { (form_refusal file.now ≡ none) × (first ≤ end) × (end ≤ blocks file.now)
        × (length (held file.now first (end - first)) ≤ length area.old) }
    ensures { (area.new ≡ overwrite area.old 0 (held file.now first (end - first)))
        × (result ≡ length (held file.now first (end - first))) }
{
    let mut at = 0;
    for i in first..end {
        at = blocks::put_used(block_at(file, i), area, at);
    }
    at
}

// Refusal 55, then 1 to 14, of the tables and the plan that a file holds, for areas of these lengths.
#[tactic(auto, unfolding(crate::specs::File::held_refusal))]
pub fn judge_held(
    tables: &[u8],
    plan: &[u8],
    tables_area: usize,
    plan_area: usize,
) -> Result<(), Refusal>
    ensures whole { result ≡ judged (held_refusal tables.now plan.now tables_area plan_area) }
{
    if tables_area < tables::LENGTH || plan_area < plan.len() {
        return Err(Refusal::from(Reason::StationArea));
    }
    plans::judge_plan(tables, plan)
}

// Judges the tables and the plan that a file holds, and only then writes them into the areas.
pub fn deliver(
    held: &[u8],
    words: &[u8],
    tables: &mut [u8],
    plan: &mut [u8],
) -> Result<usize, Refusal>
    requires { length held.now ≡ 2305 }
    ensures whole { ◌≡◌ {A = StationOutcome} (record { answer = result; tables = tables.new; plan = plan.new })
        (unless_refused
        (held_refusal held.now words.now (length tables.old) (length plan.old))
        held.now words.now tables.old plan.old) }
{
    judge_held(held, words, tables.len(), plan.len())?;
    areas::put_whole(held, tables);
    areas::put_whole(words, plan);
    Ok(words.len())
}
