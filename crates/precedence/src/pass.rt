// One pass over a plan's words, from the last to the first: whether the first action stands before a word on its path.
ghost use Rattle.std.specs.Prelude.{◌≡◌, ◌≤◌, ◌<◌, ◌||◌, eqb, length, None};
ghost use Rattle.precedence.specs.Pass.{pass, Passing, Looked};

use plans::{CHOICE, SEQUENCE};

// What the words behind a product's first factor are told: whether the product was told it, or the factor is the first action.
fn behind(factor: u8, first: u8, before: bool) -> bool
    ensures { result ≡ before || eqb factor first }
{
    before || factor == first
}

// Looks at word i: an operator hands on to its operands whether the first action stands before them. Answers whether the word is the second action, and
// the first does not stand before it.
fn look(
    n: u8,
    plan: &[u8],
    starts: &[u16],
    first: u8,
    second: u8,
    i: usize,
    seen: &mut [bool],
) -> bool
    requires { Passing n plan.now starts.now seen.old × (i < length plan.now) × (second ≤ n) }
    ensures { Looked n plan.now first second i seen.old seen.new result }
{
    let before = seen[i];
    match plan[i] {
        CHOICE => {
            let (left, right) = paths::operands(starts, i);
            seen[right] = before;
            seen[left] = before;
            false
        }
        SEQUENCE => {
            let (factor, rest) = paths::operands(starts, i);
            seen[factor] = before;
            seen[rest] = behind(plan[factor], first, before);
            false
        }
        word => word == second && !before,
    }
}

// The pass over the whole plan: the least place of the second action without the first before it.
pub fn pass(
    n: u8,
    plan: &[u8],
    starts: &[u16],
    first: u8,
    second: u8,
    seen: &mut [bool],
) -> Option<usize>
    requires { Passing n plan.now starts.now seen.old × (second ≤ n) }
    ensures { result ≡ pass n plan.now first second (length plan.now) seen.old None }
{
    let mut least = None;
    for i in (0..plan.len()).rev() {
        if look(n, plan, starts, first, second, i, seen) {
            least = Some(i);
        }
    }
    least
}
