// A plan under work as a gap buffer: loading it and moving through it.
#![tactic(auto)]

ghost use Rattle.std.specs.Prelude.{◌≡◌, ◌+◌, ◌-◌, ◌≤◌, ◌<◌, length, drop};
ghost use Rattle.std.proofs.Math.Option.{none};
ghost use Rattle.plans.specs.Judging.{words_refusal};
ghost use Rattle.buffer.specs.Buffer.{whole, Held, moved, stepped};
ghost use Rattle.buffer.specs.Moves.{Gap, loaded};
ghost use Rattle.areas.specs.Area.{most_words};

use areas::{MOST_WORDS, StepState};

// The state between two steps: how many words are read and where in its array the rest begins; and the steps made.
#[derive(Clone, Copy)]
pub struct State {
    pub read: usize,
    pub rest: usize,
    pub made: StepState,
}

impl State {
    // The state with the gap at another place.
    pub fn moved_to(self, read: usize, rest: usize) -> State
        ensures { result ≡ moved self read rest }
    {
        State { read, rest, ..self }
    }

    // The state after one step more.
    pub fn after_step(self, at: usize, old: usize, new: usize, rest: usize) -> State
        requires { self.made.steps < 18446744073709551615 }
        ensures { result ≡ stepped self at old new rest }
    {
        State {
            read: at,
            rest,
            made: self.made.after_step(at, old, new),
        }
    }
}

// Puts a plan at the end of the array of words to read; the state with nothing read and no step made.
pub fn load(plan: &[u8], right: &mut [u8]) -> State
    requires { (length plan.now ≤ most_words) × (length right.old ≡ most_words) }
    ensures { (result ≡ loaded (length plan.now))
        × (drop (most_words - length plan.now) right.new ≡ plan.now)
        × (length right.new ≡ most_words) }
{
    let rest = MOST_WORDS - plan.len();
    areas::copy_in(plan, right, rest);
    State {
        read: 0,
        rest,
        made: areas::no_step(),
    }
}

// Moves the first word of the rest over to the words read: one word at a time, since its start is found by the starts before it.
pub fn forward(n: u8, left: &mut [u8], starts: &mut [u16], right: &[u8], read: usize, rest: usize)
    requires n_bound { (n ≤ 31) × (rest < most_words) × Held n left.old starts.old right.now read rest }
    requires rest_value { words_refusal n (whole left.old right.now read rest) ≡ none }
    ensures rest_after { whole left.new right.now (read + 1) (rest + 1) ≡ whole left.old right.now read rest }
    ensures held { Held n left.new starts.new right.now (read + 1) (rest + 1) }
{
    let word = right[rest];
    starts[read] = plans::start_of_next(n, word, starts, read);
    left[read] = word;
}

// Moves the words read, from a place on, back to the rest.
pub fn back(left: &[u8], right: &mut [u8], state: State, to: usize) -> State
    requires { Gap left.now right.old state.read state.rest × (to ≤ state.read) }
    ensures { (result ≡ moved state to (state.rest - (state.read - to)))
        × (whole left.now right.new result.read result.rest ≡ whole left.now right.old state.read state.rest) }
{
    let rest = state.rest - (state.read - to);
    areas::copy_in(&left[to..state.read], right, rest);
    state.moved_to(to, rest)
}
