// The fixed form of a basic plan: judged, its summands gathered word by word, and the form written into an area.
#![tactic(auto)]

ghost use Rattle.std.specs.Prelude.{◌≡◌, cond, length, ltb};
ghost use Rattle.refusals.specs.Refusal.{judged};
ghost use Rattle.areas.specs.Area.{padded};
ghost use Rattle.forms.specs.Gathering.{form_by_sorting};
ghost use Rattle.fixing.specs.Outcome.{basic_refusal, FormOutcome, form_outcome};
ghost use Rattle.fixing.specs.Gathered.{Gatherable};

use areas::MOST_WORDS;
use refusals::{Reason, Refusal};

mod gathering;

// Judges the tables and the plan, then whether the plan is basic.
fn judge_basic(tables: &[u8], plan: &[u8]) -> Result<(), Refusal>
    ensures { result ≡ judged (basic_refusal tables.now plan.now) }
{
    plans::judge_plan(tables, plan)?;
    if plans::basic_words(tables::actions_of(tables), plan) {
        Ok(())
    } else {
        Err(Refusal::from(Reason::NotBasic))
    }
}

// Puts the form of a plan into an area that is long enough for it, zeros behind, and leaves a shorter one as it is; the form's length.
fn put_form(plan: &[u8], area: &mut [u8]) -> usize
    requires { Gatherable plan.now }
    ensures { (result ≡ length (form_by_sorting plan.now))
        × (area.new ≡ cond (ltb (length area.old) result) area.old
        (padded (form_by_sorting plan.now) (length area.old))) }
{
    let mut links = [0u16; MOST_WORDS];
    let mut sizes = [0u16; MOST_WORDS];
    let mut ends = [0u16; MOST_WORDS];
    let mut entries = [0u16; MOST_WORDS];
    let mut starts = [0u16; MOST_WORDS];
    let mut buffer = [0u16; MOST_WORDS];
    let stack = gathering::gather(
        plan,
        &mut links,
        &mut sizes,
        &mut ends,
        &mut entries,
        &mut starts,
        &mut buffer,
    );
    let start = starts[stack.parts - 1] as usize;
    let total = gathering::close(
        plan,
        &mut links,
        &sizes,
        &ends,
        &mut entries[start..stack.entries],
        &mut buffer[start..stack.entries],
        plan.len() as u16,
    );
    let size = total - 1;
    if size <= area.len() {
        chains::write_out(plan, &links, entries[start], size, area);
        areas::clear_from(area, size);
    }
    size
}

// Brings a basic plan to its fixed form, which is put into an area, zeros after: the form's length. Refusals 1 to 8, 11 to 14, then 70 for a plan that
// is not basic, then 74 for an area shorter than the form, leave the area as it is.
pub fn fix_form(tables: &[u8], plan: &[u8], area: &mut [u8]) -> Result<usize, Refusal>
    ensures whole { ◌≡◌ {A = FormOutcome} (record { answer = result; area = area.new })
        (form_outcome tables.now plan.now area.old) }
{
    judge_basic(tables, plan)?;
    let size = put_form(plan, area);
    if area.len() < size {
        return Err(Refusal::from(Reason::ShortArea));
    }
    Ok(size)
}
