// The unfolding of a plan: step after step, each at the least place at which one of laws 5 to 32 fits.
#![tactic(auto)]

ghost use Rattle.std.specs.Prelude.{◌≡◌, [], ◌≤◌, ◌<◌, length, drop};
ghost use Rattle.std.proofs.Math.Option.{none};
ghost use Rattle.areas.specs.Area.{padded, most_words};
ghost use Rattle.areas.specs.Reached.{capacity};
ghost use Rattle.areas.specs.Storing.{no_step};
ghost use Rattle.tables.specs.Tables.{actions};
ghost use Rattle.tables.specs.Lawful.{Lawful};
ghost use Rattle.plans.specs.Judging.{plan_refusal};
ghost use Rattle.rewritings.specs.Runs.{run_of};
ghost use Rattle.rounds.specs.Rounds.{Given};
ghost use Rattle.unfolding.specs.Unfolding.{settled, unfold_outcome, UnfoldOutcome};
ghost use Rattle.unfolding.specs.Made.{RunMade};

use areas::{MOST_WORDS, StepState};
use graphsteps::Stop;
use recording::Ending;
use refusals::{Reason, Refusal};

// What an unfolding answers: finished; or stopped by how far it had come (34, 35, 36); a refusal of what was handed in is the error beside it. Steps are those
// made, and size is the length of the plan reached.
#[derive(Clone, Copy)]
pub enum Unfolded {
    Finished {
        steps: usize,
        size: usize,
    },
    // By the number, since the claims on allowances (`stopped_unchanged` and others) speak of 34 to 36.
    Stopped {
        number: u8,
        steps: usize,
        size: usize,
    },
}

// How a run ended: what stopped it, if anything did; where the plan reached begins in the array of its words; and the step state.
#[derive(Clone, Copy)]
pub struct Last {
    pub stop: Option<Stop>,
    pub front: usize,
    pub state: StepState,
}

// The run of an unfolding, round after round, its records put into the list, which holds zeros. The plan stands at the end of `words`, from `front`
// on.
fn run_on(
    tables: &[u8],
    n: u8,
    list: &mut [u8],
    words: &mut [u8],
    old: &mut [u8],
    front: usize,
    allowance: u32,
    limit: usize,
) -> Last
    requires n_value { (n ≡ actions tables.now) × Lawful tables.now × (limit ≤ most_words) × (list.old ≡ padded [] (length list.old)) }
    requires given { Given tables.now limit words.old old.old front no_step }
    ensures { RunMade tables.now limit
        (run_of tables.now (drop front words.old) allowance (length list.old) limit)
        words.new old.new list.old list.new result }
{
    let mut start = front;
    let mut state = areas::no_step();
    let mut allowed = allowance as usize;
    let mut used: usize = 0;
    loop {
        let round = rounds::make_round(
            tables,
            n,
            &mut *list,
            used,
            &mut *words,
            &mut *old,
            start,
            state,
            allowed,
            limit,
        );
        start = round.front;
        state = round.state;
        allowed = round.allowed;
        used = round.used;
        match round.ending {
            Ending::Over(stop) => {
                return Last {
                    stop,
                    front: start,
                    state,
                };
            }
            Ending::NoNode => {}
        }
    }
}

// Unfolds an accepted plan that the areas can hold.
fn unfold_accepted(
    tables: &[u8],
    plan: &[u8],
    allowance: u32,
    limit: usize,
    list: &mut [u8],
    a: &mut [u8],
    b: &mut [u8],
) -> Result<Unfolded, Refusal>
    requires { (plan_refusal tables.now plan.now ≡ none) × (limit ≡ capacity a.old b.old) × (length plan.now ≤ limit) }
    ensures { ◌≡◌ {A = UnfoldOutcome} (record { answer = result; list = list.new; a = a.new; b = b.new })
        (settled (run_of tables.now plan.now allowance (length list.old) limit)
        list.old a.old b.old) }
{
    let n = tables::actions_of(tables);
    let mut words = [0u8; MOST_WORDS];
    let mut old = [0u8; MOST_WORDS];
    let front = MOST_WORDS - plan.len();
    areas::copy_in(plan, &mut words, front);
    areas::clear_from(&mut *list, 0);
    let last = run_on(
        tables, n, &mut *list, &mut words, &mut old, front, allowance, limit,
    );
    let start = last.front;
    let state = last.state;
    let size = areas::store(&plan[..0], &words[start..], &old, state, a, b);
    let steps = state.steps;
    match last.stop {
        None => Ok(Unfolded::Finished { steps, size }),
        Some(stop) => Ok(Unfolded::Stopped {
            number: stop.number(),
            steps,
            size,
        }),
    }
}

// Unfolds a plan with an allowance of steps: the records in the list, the plan reached and the one before it in the areas.
pub fn unfold(
    tables: &[u8],
    plan: &[u8],
    allowance: u32,
    list: &mut [u8],
    a: &mut [u8],
    b: &mut [u8],
) -> Result<Unfolded, Refusal>
    ensures whole { ◌≡◌ {A = UnfoldOutcome} (record { answer = result; list = list.new; a = a.new; b = b.new })
        (unfold_outcome tables.now plan.now allowance list.old a.old b.old) }
{
    plans::judge_plan(tables, plan)?;
    let limit = areas::least(a.len(), b.len());
    if limit < plan.len() {
        return Err(Refusal::from(Reason::OverCapacity));
    }
    unfold_accepted(tables, plan, allowance, limit, list, a, b)
}
