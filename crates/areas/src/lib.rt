// Lent areas: words copied into them, and zeros behind; how many words a plan may have in them; and the plan reached stored in them with the
// plan before it.
#![tactic(auto)]

ghost use Rattle.std.specs.Prelude.{◌≡◌, ◌+◌, ◌≤◌, ◌<◌, min, ◌∷◌, [], ◌++◌, length, take};
ghost use Rattle.areas.specs.Area.{overwrite, Written, padded, most_words};
ghost use Rattle.areas.specs.Storing.{no_step, stepped, before, Undoable, Storable, Stored};

// "A plan is 1 to 16,384 bytes": the most words of a plan.
pub const MOST_WORDS: usize = 16384;

// Writes one word at a place; the place after it.
pub fn put_word(word: u8, dst: &mut [u8], at: usize) -> usize
    requires { at < length dst.old }
    ensures { (dst.new ≡ overwrite dst.old at (word ∷ [])) × (result ≡ at + 1) }
{
    dst[at] = word;
    at + 1
}

// Copies words in at a place; the place after them.
pub fn copy_in(src: &[u8], dst: &mut [u8], at: usize) -> usize
    requires { at + length src.now ≤ length dst.old }
    ensures { Written dst.old dst.new at src.now result }
{
    // Word by word, and not by `copy_from_slice`: between two slices it becomes a call of `memmove`, which the archive for C would then ask for.
    for (i, &word) in src.iter().enumerate() {
        dst[at + i] = word;
    }
    at + src.len()
}

// Zeros from a place to the end.
pub fn clear_from(dst: &mut [u8], at: usize)
    requires { at ≤ length dst.old }
    ensures { dst.new ≡ padded (take at dst.old) (length dst.old) }
{
    dst[at..].fill(0);
}

// Puts words into an area, zeros behind.
pub fn put_whole(words: &[u8], area: &mut [u8])
    requires { length words.now ≤ length area.old }
    ensures { area.new ≡ padded words.now (length area.old) }
{
    let end = words.len();
    copy_in(words, area, 0);
    clear_from(area, end);
}

// C: the least of both areas' lengths and 16,384.
pub fn least(a: usize, b: usize) -> usize
    ensures { result ≡ min (min a b) most_words }
{
    a.min(b).min(MOST_WORDS)
}

// The steps made and whether they are even, and the last step: where its subplan started, how many words it had before and how many after.
// The parity stands beside the number, and the last step in no `Option`: definitions of the crates above speak of each of these fields.
#[derive(Clone, Copy)]
pub struct StepState {
    pub steps: usize,
    pub even: bool,
    pub at: usize,
    pub old: usize,
    pub new: usize,
}

impl StepState {
    // The state after one step more.
    pub fn after_step(self, at: usize, old: usize, new: usize) -> StepState
        requires { self.steps < 18446744073709551615 }
        ensures { result ≡ stepped self at old new }
    {
        StepState {
            steps: self.steps + 1,
            even: !self.even,
            at,
            old,
            new,
        }
    }
}

// The state before the first step. It has a name of its own and is no `Default`: calls say by it which state they begin with.
pub fn no_step() -> StepState
    ensures { result ≡ no_step }
{
    StepState {
        steps: 0,
        even: true,
        at: 0,
        old: 0,
        new: 0,
    }
}

// Puts a plan of two parts into an area, with zeros behind; how many words it has.
fn put_plan(left: &[u8], right: &[u8], dst: &mut [u8]) -> usize
    requires { length (left.now ++ right.now) ≤ length dst.old }
    ensures { (dst.new ≡ padded (left.now ++ right.now) (length dst.old))
        × (result ≡ length (left.now ++ right.now)) }
{
    let middle = copy_in(left, dst, 0);
    let end = copy_in(right, dst, middle);
    clear_from(dst, end);
    end
}

// Puts the plan one step before into an area, with zeros behind; zeros alone where no step was made. The first `size` words of `plan` are
// the plan now.
fn put_before(plan: &[u8], size: usize, old: &[u8], state: StepState, dst: &mut [u8])
    requires { (size ≤ length plan.now) × Undoable state (take size plan.now) old.now (length dst.old) }
    ensures { dst.new ≡ padded (before state (take size plan.now) old.now) (length dst.old) }
{
    let behind = state.at + state.new;
    if state.steps == 0 {
        clear_from(dst, 0);
    } else {
        let first = copy_in(&plan[..state.at], dst, 0);
        let second = copy_in(&old[..state.old], dst, first);
        let third = copy_in(&plan[behind..size], dst, second);
        clear_from(dst, third);
    }
}

// Puts the plan into one area and the plan one step before into the other; how many words the plan has. The plan is left followed by right,
// and old begins with the words that the last step took away.
fn put_both(
    left: &[u8],
    right: &[u8],
    old: &[u8],
    state: StepState,
    now: &mut [u8],
    past: &mut [u8],
) -> usize
    requires room { length (left.now ++ right.now) ≤ length now.old }
    requires undoable { Undoable state (left.now ++ right.now) old.now (length past.old) }
    ensures plan { now.new ≡ padded (left.now ++ right.now) (length now.old) }
    ensures plan_before { past.new ≡ padded (before state (left.now ++ right.now) old.now) (length past.old) }
    ensures size { result ≡ length (left.now ++ right.now) }
{
    let size = put_plan(left, right, now);
    put_before(&now[..], size, old, state, past);
    size
}

// Puts the plan and the one before it into the two areas: after an even number of steps the plan stands in a, after an odd one in b. How
// many words the plan has. The plan is left followed by right, and old begins with the words that the last step took away.
pub fn store(
    left: &[u8],
    right: &[u8],
    old: &[u8],
    state: StepState,
    a: &mut [u8],
    b: &mut [u8],
) -> usize
    requires { Storable state (left.now ++ right.now) old.now (length a.old) (length b.old) }
    ensures { Stored a.old b.old a.new b.new state
        (left.now ++ right.now) old.now result }
{
    if state.even {
        put_both(left, right, old, state, a, b)
    } else {
        put_both(left, right, old, state, b, a)
    }
}
