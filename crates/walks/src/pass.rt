// One pass over a plan's words, from the last to the first: what a message leads to from the marked subplans.
ghost use Rattle.std.specs.Prelude.{◌≡◌, false, ◌<◌, length};
ghost use Rattle.walks.specs.Pass.{Pass, look, pass, some_mark};
ghost use Rattle.walks.specs.Turns.{Passing, Looked};

use plans::{CHOICE, SEQUENCE};

// Looks at the marked word i: a sum hands its mark to both operands; a product whose first factor is the message marks its second factor in
// `next`; whether it is an action that is the message.
fn look(
    n: u8,
    plan: &[u8],
    starts: &[u16],
    message: u8,
    i: usize,
    left: &mut [u8],
    next: &mut [u8],
) -> bool
    requires { Passing n plan.now starts.now left.old next.old × (i < length plan.now) }
    ensures { Looked n plan.now message i left.old next.old left.new next.new result }
{
    match plan[i] {
        CHOICE => {
            let (first, second) = paths::operands(starts, i);
            left[second] = 1;
            left[first] = 1;
            false
        }
        SEQUENCE => {
            let (first, second) = paths::operands(starts, i);
            if plan[first] == message {
                next[second] = 1;
            }
            false
        }
        word => word == message,
    }
}

// The pass over the whole plan; whether the message finishes. (The pass of `precedence` gathers something else at the same words: a common one would be
// longer than both.)
pub fn pass(
    n: u8,
    plan: &[u8],
    starts: &[u16],
    message: u8,
    left: &mut [u8],
    next: &mut [u8],
) -> bool
    requires { Passing n plan.now starts.now left.old next.old }
    ensures { ◌≡◌ {A = Pass} (record { left = left.new; next = next.new; ending = result })
        (pass n plan.now message (length plan.now)
        (record { left = left.old; next = next.old; ending = false })) }
{
    let mut finishes = false;
    for i in (0..plan.len()).rev() {
        if left[i] != 0 {
            finishes |= look(n, plan, starts, message, i, left, next);
        }
    }
    finishes
}

// Whether some word is marked.
pub fn some_mark(marks: &[u8]) -> bool
    ensures { result ≡ some_mark marks.now }
{
    marks.iter().any(|&mark| 0 < mark)
}
