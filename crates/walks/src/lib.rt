// Walks: the hub's progress through a basic plan, and one message at a time.
#![tactic(auto)]

ghost use Rattle.std.specs.Prelude.{◌≡◌, false, ◌||◌, length};
ghost use Rattle.refusals.specs.Refusal.{judged};
ghost use Rattle.tables.specs.Tables.{outside?};
ghost use Rattle.walks.specs.Pass.{some_mark, take_message};
ghost use Rattle.walks.specs.Outcome.{WalkOutcome, not_walkable_refusal, fresh_outcome, walk_outcome};
ghost use Rattle.walks.specs.Turns.{Walking, Found, message_outcome};

use areas::MOST_WORDS;
use refusals::{Reason, Refusal};

mod pass;

// Judges the tables and the plan, then whether the plan is basic and each of its words has one mark byte.
#[tactic(auto, using(paths::proofs::Judged::judging), unfolding(crate::specs::Outcome::not_walkable_refusal))]
fn judge_walk(tables: &[u8], plan: &[u8], marks: &[u8]) -> Result<(), Refusal>
    ensures { result ≡ judged (not_walkable_refusal tables.now plan.now marks.now) }
{
    plans::judge_plan(tables, plan)?;
    if plans::basic_words(tables::actions_of(tables), plan) && marks.len() == plan.len() {
        Ok(())
    } else {
        Err(Refusal::from(Reason::NotBasic))
    }
}

// Begins a walk: one mark, at the plan's last word, and no finish reached. Where it is refused, marks and finish stay as they are. (They are two
// parameters, as in the C interface.)
#[tactic(auto, using(crate::proofs::Outcomes::walkable), unfolding(crate::specs::Outcome::fresh_outcome, crate::specs::Progress::fresh))]
pub fn fresh_walk(
    tables: &[u8],
    plan: &[u8],
    marks: &mut [u8],
    finished: &mut bool,
) -> Result<(), Refusal>
    ensures whole { ◌≡◌ {A = WalkOutcome}
        (record { answer = result; progress = record { marks = marks.new; finish = finished.new } })
        (fresh_outcome tables.now plan.now
        (record { marks = marks.old; finish = finished.old })) }
{
    judge_walk(tables, plan, &*marks)?;
    marks.fill(0);
    marks[plan.len() - 1] = 1;
    *finished = false;
    Ok(())
}

// What a message leads to from the marks: its marks go to `next`; and whether it finishes. The marks to look at stand in an array of our own, since a
// message may still be refused, and in fixed memory, as the starts do.
#[tactic(auto, using(crate::proofs::Turning::short))]
fn find_next(n: u8, plan: &[u8], marks: &[u8], message: u8, next: &mut [u8]) -> bool
    requires { Walking n plan.now marks.now × (length next.old ≡ length plan.now) }
    ensures { Found n plan.now message marks.now next.new result }
{
    let mut starts = [0u16; MOST_WORDS];
    paths::find_starts(n, plan, &mut starts);
    let mut left = [0u8; MOST_WORDS];
    areas::copy_in(marks, &mut left, 0);
    next.fill(0);
    pass::pass(n, plan, &starts, message, &mut left[..marks.len()], next)
}

// Whether a message led anywhere.
fn leads_on(finishes: bool, next: &[u8]) -> bool
    ensures { result ≡ finishes || some_mark next.now }
{
    finishes || pass::some_mark(next)
}

// Takes a message of 1 to n, or refuses it with 72. What it leads to is put into an array of our own first, and into the marks when it is known to be
// taken.
#[tactic(auto, using(crate::proofs::Turning::short), unfolding(crate::specs::Pass::take_message, crate::specs::Pass::progress_after))]
fn take_message(
    n: u8,
    plan: &[u8],
    marks: &mut [u8],
    message: u8,
    finished: &mut bool,
) -> Result<(), Refusal>
    requires { Walking n plan.now marks.old × (outside? n message ≡ false) }
    ensures { ◌≡◌ {A = WalkOutcome}
        (record { answer = result; progress = record { marks = marks.new; finish = finished.new } })
        (message_outcome (take_message n plan.now message (record { marks = marks.old; finish = finished.old }))
        (record { marks = marks.old; finish = finished.old })) }
{
    let mut held = [0u8; MOST_WORDS];
    let next = &mut held[..plan.len()];
    let finishes = find_next(n, plan, &*marks, message, &mut *next);
    if leads_on(finishes, next) {
        marks.copy_from_slice(next);
        *finished = finishes;
        Ok(())
    } else {
        Err(Refusal::from(Reason::NoPath))
    }
}

// Takes one message: the marks of what it leads to from the marked subplans, and whether it finishes. Where it is refused, marks and finish stay as
// they are.
#[tactic(auto, using(crate::proofs::Outcomes::walkable), unfolding(crate::specs::Outcome::walk_outcome, crate::specs::Outcome::walk_refusal))]
pub fn walk(
    tables: &[u8],
    plan: &[u8],
    marks: &mut [u8],
    message: u8,
    finished: &mut bool,
) -> Result<(), Refusal>
    ensures whole { ◌≡◌ {A = WalkOutcome}
        (record { answer = result; progress = record { marks = marks.new; finish = finished.new } })
        (walk_outcome tables.now plan.now message
        (record { marks = marks.old; finish = finished.old })) }
{
    judge_walk(tables, plan, &*marks)?;
    let n = tables::actions_of(tables);
    if tables::is_outside(n, message) {
        return Err(Refusal::from(Reason::OutsideActions));
    }
    take_message(n, plan, marks, message, finished)
}
