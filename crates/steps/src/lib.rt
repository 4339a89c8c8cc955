// Steps on a plan under work, from left to right and from right to left: words put in place of a subplan, and a step made at a place.
#![tactic(auto)]

ghost use Rattle.std.specs.Prelude.{◌≡◌, ◌+◌, ◌*◌, ◌≤◌, ◌<◌, length, take};
ghost use Rattle.std.proofs.Math.Option.{none};
ghost use Rattle.tables.specs.Tables.{actions};
ghost use Rattle.tables.specs.Lawful.{Lawful};
ghost use Rattle.matching.specs.Right.{Reaches};
ghost use Rattle.areas.specs.Storing.{Kept};
ghost use Rattle.steps.specs.Working.{plan_in, Working, Same, Subplan, Room, Put, side_here, Sought, Stepping, fault_number};
ghost use Rattle.plans.specs.Judging.{words_refusal};
ghost use Rattle.laws.specs.Step.{step, step_back};
ghost use Rattle.areas.specs.Area.{most_words};
ghost use Rattle.laws.specs.Laws.{highest_law};

use areas::MOST_WORDS;
use buffer::State;
use matching::Letters;

// Why a step is not made: the law does not fit at the place, or the next plan would be too long.
#[derive(Clone, Copy, Debug, PartialEq, Eq)]
pub enum Fault {
    DoesNotFit,
    TooLong,
}

impl Fault {
    // The number by which the documents name it.
    pub fn number(self) -> u8
        ensures { result ≡ fault_number self }
    {
        match self {
            Fault::DoesNotFit => 31,
            Fault::TooLong => 32,
        }
    }
}

// A step that is not made: why, and the state then, which holds the same plan.
#[derive(Clone, Copy)]
pub struct NotMade {
    pub fault: Fault,
    pub state: State,
}

// Makes room for so many words in place of the subplan at the last word read, unless the plan would have more than limit words: the state after the
// step, with the words still to be put where its rest begins. The words taken away are kept in old.
fn make_room(
    left: &[u8],
    starts: &[u16],
    old: &mut [u8],
    state: State,
    size: usize,
    limit: usize,
) -> Option<State>
    requires size_bound { (size ≤ 11 * most_words) × (limit ≤ most_words) × (state.made.steps < 18446744073709551615) × (length old.old ≡ most_words) }
    requires subplan { Subplan left.now starts.now state }
    ensures { Room limit size left.now starts.now old.old old.new state result }
{
    let State { read, rest, .. } = state;
    let start = usize::from(starts[read - 1]);
    let gone = read - start;
    if limit < start + size + (MOST_WORDS - rest) {
        return None;
    }
    areas::copy_in(&left[start..read], old, 0);
    Some(state.after_step(start, gone, size, rest - size))
}

// Puts the right side of a law that fits at the last word read in place of the subplan there, unless the plan would have more than limit words.
pub fn put_side(
    law: u8,
    tables: &[u8],
    left: &[u8],
    starts: &[u16],
    right: &mut [u8],
    old: &mut [u8],
    letters: &Letters,
    state: State,
    limit: usize,
) -> Option<State>
    requires le_law { (1 ≤ law) × (law ≤ highest_law) × (limit ≤ most_words) × (state.made.steps < 18446744073709551615) }
    requires le_read { (1 ≤ state.read) × Working tables.now left.now starts.now right.old state
        × Reaches (take state.read left.now) letters.now.from letters.now.to × (length old.old ≡ most_words) }
    ensures { Put limit (side_here tables.now law left.now letters.now.from letters.now.to state)
        left.now starts.now right.old old.old right.new old.new state result }
{
    let size = matching::right_len(law, letters);
    let next = make_room(left, starts, old, state, size, limit)?;
    matching::put_side(law, tables, &left[..state.read], letters, right, next.rest);
    Some(next)
}

// Puts words in place of the subplan at the last word read, unless the plan would have more than limit words.
pub fn put_words(
    words: &[u8],
    tables: &[u8],
    left: &[u8],
    starts: &[u16],
    right: &mut [u8],
    old: &mut [u8],
    state: State,
    limit: usize,
) -> Option<State>
    requires words_len_bound { (length words.now ≤ most_words) × (limit ≤ most_words) × (state.made.steps < 18446744073709551615) }
    requires le_read { (1 ≤ state.read) × Working tables.now left.now starts.now right.old state × (length old.old ≡ most_words) }
    ensures { Put limit words.now
        left.now starts.now right.old old.old right.new old.new state result }
{
    let next = make_room(left, starts, old, state, words.len(), limit)?;
    areas::copy_in(words, right, next.rest);
    Some(next)
}

// Moves the gap forward until the word at a place is the last one read.
pub fn forward_to(
    n: u8,
    tables: &[u8],
    left: &mut [u8],
    starts: &mut [u16],
    right: &[u8],
    state: State,
    place: usize,
) -> State
    requires n_value { (n ≡ actions tables.now) × (n ≤ 31) × Working tables.now left.old starts.old right.now state }
    requires read_bound { (state.read ≤ place + 1) × (place < length (plan_in left.old right.now state)) }
    ensures { Same tables.now left.old starts.old right.now
        left.new starts.new right.now state result
        × (result.read ≡ place + 1) }
{
    let gap = state.rest - state.read;
    for read in state.read..place + 1 {
        buffer::forward(n, left, starts, right, read, gap + read);
    }
    state.moved_to(place + 1, gap + place + 1)
}

// Moves the gap back until the word at a place is the last one read.
pub fn back_to(
    tables: &[u8],
    left: &[u8],
    starts: &[u16],
    right: &mut [u8],
    state: State,
    place: usize,
) -> State
    requires { Working tables.now left.now starts.now right.old state × (place < state.read) }
    ensures { Same tables.now left.now starts.now right.old
        left.now starts.now right.new state result
        × (result.read ≡ place + 1) }
{
    buffer::back(left, right, state, place + 1)
}

// Moves the gap until the word at a place is the last one read.
pub fn seek(
    n: u8,
    tables: &[u8],
    left: &mut [u8],
    starts: &mut [u16],
    right: &mut [u8],
    state: State,
    place: usize,
) -> State
    requires { (n ≡ actions tables.now) × (n ≤ 31) × Working tables.now left.old starts.old right.old state
        × (place < length (plan_in left.old right.old state)) }
    ensures { Same tables.now left.old starts.old right.old
        left.new starts.new right.new state result
        × (result.read ≡ place + 1) }
{
    if state.read <= place {
        forward_to(n, tables, left, starts, &*right, state, place)
    } else {
        back_to(tables, &*left, &*starts, right, state, place)
    }
}

// Moves the gap until the word at a place is the last one read; past the plan's end no law fits.
fn seek_within(
    n: u8,
    tables: &[u8],
    left: &mut [u8],
    starts: &mut [u16],
    right: &mut [u8],
    state: State,
    place: usize,
) -> Result<State, NotMade>
    requires { (n ≡ actions tables.now) × (n ≤ 31) × Working tables.now left.old starts.old right.old state }
    ensures { Sought tables.now place left.old starts.old right.old left.new starts.new right.new state result }
{
    let size = state.read + (MOST_WORDS - state.rest);
    if size <= place {
        return Err(NotMade {
            fault: Fault::DoesNotFit,
            state,
        });
    }
    Ok(seek(n, tables, left, starts, right, state, place))
}

// Makes law `law` at a place, if it fits there and the next plan has at most limit words.
pub fn make_step(
    tables: &[u8],
    n: u8,
    law: u8,
    place: usize,
    left: &mut [u8],
    starts: &mut [u16],
    right: &mut [u8],
    old: &mut [u8],
    state: State,
    limit: usize,
) -> Result<State, NotMade>
    requires n_value { (n ≡ actions tables.now) × Lawful tables.now × (1 ≤ law) × (law ≤ highest_law) }
    requires limit_le_most_words { (limit ≤ most_words) × (state.made.steps < 18446744073709551615) × (length old.old ≡ most_words) }
    requires working { Working tables.now left.old starts.old right.old state × Kept limit (plan_in left.old right.old state) old.old state.made }
    ensures { Stepping tables.now
        (step tables.now law place (plan_in left.old right.old state)) limit
        left.old starts.old right.old old.old
        left.new starts.new right.new old.new state result }
{
    let there = seek_within(n, tables, left, starts, right, state, place)?;
    let read = there.read;
    let Some(letters) = matching::law_fits(law, tables, n, &left[..read], &starts[..read]) else {
        return Err(NotMade {
            fault: Fault::DoesNotFit,
            state: there,
        });
    };
    put_side(
        law, tables, left, starts, right, old, &letters, there, limit,
    )
    .ok_or(NotMade {
        fault: Fault::TooLong,
        state: there,
    })
}

// Makes law `law` backwards at a place with the words of a left side, if the law makes of these the subplan there and the next plan has at most limit
// words.
pub fn step_back(
    tables: &[u8],
    n: u8,
    law: u8,
    place: usize,
    carried: &[u8],
    left: &mut [u8],
    starts: &mut [u16],
    right: &mut [u8],
    old: &mut [u8],
    state: State,
    limit: usize,
) -> Result<State, NotMade>
    requires n_value { (n ≡ actions tables.now) × Lawful tables.now × (1 ≤ law) × (law ≤ highest_law) × (words_refusal n carried.now ≡ none) }
    requires limit_le_most_words { (limit ≤ most_words) × (state.made.steps < 18446744073709551615) × (length old.old ≡ most_words) }
    requires working { Working tables.now left.old starts.old right.old state × Kept limit (plan_in left.old right.old state) old.old state.made }
    ensures { Stepping tables.now
        (step_back tables.now law place carried.now (plan_in left.old right.old state)) limit
        left.old starts.old right.old old.old
        left.new starts.new right.new old.new state result }
{
    let there = seek_within(n, tables, left, starts, right, state, place)?;
    let State { read, rest, .. } = there;
    let start = usize::from(starts[read - 1]);
    // the words before the rest hold nothing, and there are as many as are read at least
    if !matching::law_gives(
        law,
        tables,
        n,
        carried,
        &mut right[..rest],
        &left[start..read],
    ) {
        return Err(NotMade {
            fault: Fault::DoesNotFit,
            state: there,
        });
    }
    put_words(carried, tables, left, starts, right, old, there, limit).ok_or(NotMade {
        fault: Fault::TooLong,
        state: there,
    })
}
