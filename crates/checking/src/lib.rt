// The checker: the replay of anybody's rewriting, with steps of both directions.
#![tactic(auto)]

ghost use Rattle.std.specs.Prelude.{◌≡◌, cond, ◌+◌, ◌≤◌, ◌<◌, length, take};
ghost use Rattle.std.proofs.Math.Option.{none, some};
ghost use Rattle.refusals.specs.Refusal.{judged};
ghost use Rattle.areas.specs.Area.{most_words};
ghost use Rattle.areas.specs.Storing.{before, Kept};
ghost use Rattle.tables.specs.Tables.{actions};
ghost use Rattle.tables.specs.Lawful.{Lawful};
ghost use Rattle.areas.specs.Reached.{capacity};
ghost use Rattle.plans.specs.Judging.{plan_refusal, words_refusal};
ghost use Rattle.laws.specs.Laws.{same_bytes};
ghost use Rattle.steps.specs.Working.{plan_in, Working};
ghost use Rattle.rewritings.specs.Records.{records_of};
ghost use Rattle.checking.specs.Checking.{if_refused, unknown_law, left_refusal, records_refusal, rewriting_refusal};
ghost use Rattle.checking.specs.Checking.{replay_of, settled, check_outcome, CheckOutcome};
ghost use Rattle.checking.specs.Turns.{law_refusal, state_of, Replayed};

use areas::MOST_WORDS;
use buffer::State;
use refusals::{Place, Reason, Refusal};
use rewritings::Record;
use steps::NotMade;

// What a check answers: accepted; or turned back by how far it had come (31, 32, 33); a refusal of what was handed in is the error beside it.
#[derive(Clone, Copy)]
pub enum Checked {
    Accepted {
        steps: usize,
        size: usize,
    },
    // a number, since the claims of `check_rewriting` speak of it
    TurnedBack {
        number: u8,
        steps: usize,
        size: usize,
    },
}

// 33: all steps are replayed, and the end differs from the claimed plan.
const OTHER_END: u8 = 33;

// Judges the law of a step from left to right: 17 where it is 0 or above 32.
fn judge_law(law: u8, step: usize) -> Result<(), Refusal>
    ensures { result ≡ judged (law_refusal law step) }
{
    if law < 1 || laws::HIGHEST_LAW < law {
        return Err(Refusal::at(Reason::UnknownLaw, Place::Step(step)));
    }
    Ok(())
}

// Judges words that are to be an accepted plan: this refusal where they are none.
fn judge_words_as(n: u8, words: &[u8], refusal: Refusal) -> Result<(), Refusal>
    requires { n ≤ 31 }
    ensures { result ≡ judged (if_refused (words_refusal n words.now) (some refusal)) }
{
    plans::judge_words(n, words).map_err(|_| refusal)
}

// Judges the records of a rewriting in one pass: 16, 17 and 75, each of all of it before the next.
fn judge_records(n: u8, rewriting: &[u8]) -> Result<(), Refusal>
    requires { n ≤ 31 }
    ensures { result ≡ judged (records_refusal n rewriting.now) }
{
    let mut at = 0;
    let mut step = 0;
    let mut unknown = Ok(());
    let mut no_plan = Ok(());
    while let Some(record) = rewritings::record_at(rewriting, at) {
        match record {
            Record::Step { law, next, .. } => {
                if unknown.is_ok() {
                    unknown = judge_law(law, step);
                }
                at = next;
            }
            Record::Back { from, next, .. } => {
                // only the first that is no plan is told of, so none behind it is judged
                if no_plan.is_ok() {
                    let refusal = Refusal::at(Reason::CarriedPlan, Place::Step(step));
                    no_plan = judge_words_as(n, &rewriting[from..next], refusal);
                }
                at = next;
            }
        }
        step += 1;
    }
    if at < rewriting.len() {
        return Err(Refusal::from(Reason::RecordCutShort));
    }
    unknown.and(no_plan)
}

// Judges what a checker is handed besides tables and start plan: 18, 15, and then the records.
fn judge_rewriting(
    n: u8,
    start: &[u8],
    claimed: &[u8],
    rewriting: &[u8],
    limit: usize,
) -> Result<(), Refusal>
    requires { n ≤ 31 }
    ensures { result ≡ judged (rewriting_refusal n start.now claimed.now rewriting.now limit) }
{
    judge_words_as(n, claimed, Refusal::from(Reason::ClaimedPlan))?;
    if limit < start.len() {
        return Err(Refusal::from(Reason::OverCapacity));
    }
    judge_records(n, rewriting)
}

// Replays a rewriting on the plan under work.
fn replay_on(
    tables: &[u8],
    n: u8,
    rewriting: &[u8],
    left: &mut [u8],
    starts: &mut [u16],
    right: &mut [u8],
    old: &mut [u8],
    state: State,
    limit: usize,
) -> Result<State, NotMade>
    requires n_value { (n ≡ actions tables.now) × Lawful tables.now × (limit ≤ most_words) × (length old.old ≡ most_words)
        × (unknown_law 0 (records_of rewriting.now) ≡ none) × (left_refusal n 0 (records_of rewriting.now) ≡ none) }
    requires working { Working tables.now left.old starts.old right.old state
        × Kept limit (plan_in left.old right.old state) old.old state.made × (state.made.steps ≡ 0) }
    ensures { Replayed tables.now limit (records_of rewriting.now) 0
        (plan_in left.old right.old state)
        (before state.made (plan_in left.old right.old state) old.old)
        left.new starts.new right.new old.new result }
{
    let mut gap = state;
    let mut at = 0;
    while let Some(record) = rewritings::record_at(rewriting, at) {
        match record {
            Record::Step { law, place, next } => {
                gap = steps::make_step(
                    tables, n, law, place, left, starts, right, old, gap, limit,
                )?;
                at = next;
            }
            Record::Back {
                law,
                place,
                from,
                next,
            } => {
                let carried = &rewriting[from..next];
                gap = steps::step_back(
                    tables, n, law, place, carried, left, starts, right, old, gap, limit,
                )?;
                at = next;
            }
        }
    }
    Ok(gap)
}

// The state in which a replay ended, or stopped.
fn last_state(replayed: Result<State, NotMade>) -> State
    ensures { result ≡ state_of replayed }
{
    match replayed {
        Ok(end) => end,
        Err(stopped) => stopped.state,
    }
}

// Whether the plan reached, which stands in one of two areas by the parity, equals the claimed one in its words.
fn reached(a: &[u8], b: &[u8], even: bool, size: usize, claimed: &[u8]) -> bool
    requires { (size ≤ length a.now) × (size ≤ length b.now) }
    ensures { result ≡ same_bytes (take size (cond even a.now b.now)) claimed.now }
{
    let plan = if even { a } else { b };
    matching::same_words(&plan[..size], claimed)
}

// Checks a rewriting of an accepted plan that the areas can hold, of whose records nothing is refused.
fn check_accepted(
    tables: &[u8],
    start: &[u8],
    claimed: &[u8],
    rewriting: &[u8],
    limit: usize,
    a: &mut [u8],
    b: &mut [u8],
) -> Result<Checked, Refusal>
    requires { (plan_refusal tables.now start.now ≡ none) × (limit ≡ capacity a.old b.old) × (length start.now ≤ limit)
        × (unknown_law 0 (records_of rewriting.now) ≡ none) × (left_refusal (actions tables.now) 0 (records_of rewriting.now) ≡ none) }
    ensures { ◌≡◌ {A = CheckOutcome} (record { answer = result; a = a.new; b = b.new })
        (settled (replay_of tables.now start.now claimed.now rewriting.now limit)
        a.old b.old) }
{
    let n = tables::actions_of(tables);
    // a plan under work in arrays of fixed length: nothing is allocated
    let mut left = [0u8; MOST_WORDS];
    let mut starts = [0u16; MOST_WORDS];
    let mut right = [0u8; MOST_WORDS];
    let mut old = [0u8; MOST_WORDS];
    let state = buffer::load(start, &mut right);
    let replayed = replay_on(
        tables,
        n,
        rewriting,
        &mut left,
        &mut starts,
        &mut right,
        &mut old,
        state,
        limit,
    );
    let State { read, rest, made } = last_state(replayed);
    let size = areas::store(&left[..read], &right[rest..], &old, made, &mut *a, &mut *b);
    let steps = made.steps;
    if let Err(stopped) = replayed {
        let number = stopped.fault.number();
        return Ok(Checked::TurnedBack {
            number,
            steps,
            size,
        });
    }
    if reached(&*a, &*b, made.even, size, claimed) {
        return Ok(Checked::Accepted { steps, size });
    }
    Ok(Checked::TurnedBack {
        number: OTHER_END,
        steps,
        size,
    })
}

// Checks a rewriting, with steps of both directions, from a start plan to a claimed end plan.
pub fn check_rewriting(
    tables: &[u8],
    start: &[u8],
    claimed: &[u8],
    rewriting: &[u8],
    a: &mut [u8],
    b: &mut [u8],
) -> Result<Checked, Refusal>
    ensures whole { ◌≡◌ {A = CheckOutcome} (record { answer = result; a = a.new; b = b.new })
        (check_outcome tables.now start.now claimed.now rewriting.now a.old b.old) }
{
    plans::judge_plan(tables, start)?;
    let n = tables::actions_of(tables);
    let limit = areas::least(a.len(), b.len());
    judge_rewriting(n, start, claimed, rewriting, limit)?;
    check_accepted(tables, start, claimed, rewriting, limit, a, b)
}
