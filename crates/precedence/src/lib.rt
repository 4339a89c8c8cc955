// Precedence: whether on every path of a basic plan one action stands before another.
#![tactic(auto)]

ghost use Rattle.std.specs.Prelude.{◌≡◌, ◌≤◌};
ghost use Rattle.std.proofs.Math.Option.{none};
ghost use Rattle.refusals.specs.Refusal.{judged};
ghost use Rattle.plans.specs.Judging.{words_refusal};
ghost use Rattle.precedence.specs.Pass.{passed};
ghost use Rattle.precedence.specs.Outcome.{not_a_pair?, precedence_refusal, precedence_answer};

use areas::MOST_WORDS;
use refusals::{Reason, Refusal};

mod pass;

// Whether the actions are equal, or one of them is outside 1 to n.
fn is_not_a_pair(n: u8, first: u8, second: u8) -> bool
    ensures { result ≡ not_a_pair? n first second }
{
    first == second || (tables::is_outside(n, first) || tables::is_outside(n, second))
}

// Judges the tables and the plan, then the two actions, then whether the plan is basic.
#[tactic(auto, using(paths::proofs::Judged::judging), unfolding(crate::specs::Outcome::precedence_refusal))]
fn judge_question(tables: &[u8], plan: &[u8], first: u8, second: u8) -> Result<(), Refusal>
    ensures { result ≡ judged (precedence_refusal tables.now plan.now first second) }
{
    plans::judge_plan(tables, plan)?;
    let n = tables::actions_of(tables);
    if is_not_a_pair(n, first, second) {
        return Err(Refusal::from(Reason::NotAPair));
    }
    if plans::basic_words(n, plan) {
        Ok(())
    } else {
        Err(Refusal::from(Reason::NotBasic))
    }
}

// The least place of the second action that has none of the first before it on its path.
#[tactic(auto, using(crate::proofs::Turning::short), unfolding(crate::specs::Pass::passed))]
fn find_overtaking(n: u8, plan: &[u8], first: u8, second: u8) -> Option<usize>
    requires { (n ≤ 31) × (words_refusal n plan.now ≡ none) × (second ≤ n) }
    ensures { result ≡ passed n plan.now first second }
{
    let mut starts = [0u16; MOST_WORDS];
    paths::find_starts(n, plan, &mut starts);
    let mut seen = [false; MOST_WORDS];
    pass::pass(n, plan, &starts, first, second, &mut seen)
}

// Whether on every path of a basic plan each appearance of the second action has the first somewhere before it, and else the least place of one that
// has not. Refusals 1 to 8, 11 to 14, then 73 for equal actions or one outside 1 to n, then 70 for a plan that is not basic.
#[tactic(auto, using(crate::proofs::Outcomes::answering), unfolding(crate::specs::Outcome::precedence_answer))]
pub fn precedes(tables: &[u8], plan: &[u8], first: u8, second: u8) -> Result<Option<usize>, Refusal>
    ensures whole { result ≡ precedence_answer tables.now plan.now first second }
{
    judge_question(tables, plan, first, second)?;
    Ok(find_overtaking(tables::actions_of(tables), plan, first, second))
}
