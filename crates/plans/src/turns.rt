// One word of a plan at a time: what it does to the subplans that wait.
ghost use Rattle.std.specs.Prelude.{◌≡◌, ◌≤◌};
ghost use Rattle.plans.specs.Judging.{turn_of};
ghost use Rattle.areas.specs.Area.{most_words};

use super::{Word, classify, operands};
use refusals::Reason;

// A byte read where so many subplans wait: how many wait then; "12 no word, 13 too few operands", 12 before 13.
#[tactic(auto, unfolding(crate::specs::Judging::turn_of))]
pub fn take_word(n: u8, byte: u8, depth: usize) -> Result<usize, Reason>
    requires { (n ≤ 31) × (depth ≤ most_words) }
    ensures whole { result ≡ turn_of n byte depth }
{
    if let Word::NoWord = classify(n, byte) {
        return Err(Reason::UnknownWord);
    }
    let taken = operands(byte) as usize;
    if depth < taken {
        Err(Reason::TooFewOperands)
    } else {
        Ok(depth - taken + 1)
    }
}
