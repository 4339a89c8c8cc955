// A round of the unfolding: the plan is loaded into a graph of terms, steps are made there, and the plan reached is written out again. A round
// ends with the run, or where no node is left; then another follows.
#![tactic(auto)]

ghost use Rattle.std.specs.Prelude.{◌≡◌, ◌+◌, ◌≤◌, ◌<◌, length};
ghost use Rattle.areas.specs.Area.{most_words};
ghost use Rattle.tables.specs.Tables.{actions};
ghost use Rattle.tables.specs.Lawful.{Lawful};
ghost use Rattle.graph.specs.Graph.{graph, Nodes, most_nodes};
ghost use Rattle.rounds.specs.Rounds.{Given, PlanOf, WroteOut, RedexOf, RedexIn, RoundOf};

use areas::{MOST_WORDS, StepState};
use graph::{FIRST_NODE, MOST_NODES};
use graphsteps::{Cut, Reading};
use recording::Ending;

// Areas of at most so many words take a graph of few nodes, so that less is set to zero in each call.
const FEW_WORDS: usize = 2048;

// The length of the arrays of nodes then. A plan of at most 2,048 words leaves at least 1,792 of the 3,840 nodes for the steps after a loading.
const FEW_NODES: usize = 4096;

// A round: where the plan reached begins in the array of its words, the step state, the steps still allowed, how much of the list is used, and
// how the round ended.
#[derive(Clone, Copy)]
pub struct Round {
    pub front: usize,
    pub state: StepState,
    pub allowed: usize,
    pub used: usize,
    pub ending: Ending,
}

// Writes the words of the subplan that a step took away to the front of an area.
pub fn put_redex(
    own: &[u8],
    first: &[u16],
    second: &[u16],
    stack: &mut [u16],
    cut: Cut,
    old: &mut [u8],
)
    requires nodes { Nodes (graph own.now first.now second.now) × RedexOf (graph own.now first.now second.now) cut }
    requires stack_len { (length stack.old ≡ most_words) × (length old.old ≡ most_words) × (cut.old ≤ most_words) }
    ensures { RedexIn (graph own.now first.now second.now) cut old.new }
{
    let word = cut.word;
    stack[0] = cut.a;
    let mut height: usize = 1;
    if plans::takes_two(word) {
        stack[1] = cut.b;
        height = 2;
    }
    stack[height] = word as u16;
    graph::write_back(own, first, second, stack, height + 1, old, cut.old);
}

// Writes the plan that a graph holds, on a stack and in the entries still to read, to the end of an area; where it begins there.
pub fn write_out(
    own: &[u8],
    first: &[u16],
    second: &[u16],
    stack: &mut [u16],
    height: usize,
    todo: &[u16],
    rest: usize,
    dst: &mut [u8],
) -> usize
    requires nodes { Nodes (graph own.now first.now second.now) × PlanOf (graph own.now first.now second.now) stack.old height todo.now rest }
    requires stack_len { (length stack.old ≡ most_words) × (length todo.now ≡ most_words) × (length dst.old ≡ most_words) × (rest ≤ most_words) }
    ensures { WroteOut (graph own.now first.now second.now)
        stack.old height todo.now rest dst.new result }
{
    let entries = graph::push_rest(todo, rest, &mut *stack, height);
    graph::write_back(own, first, second, stack, entries, dst, MOST_WORDS)
}

// A round on a graph whose nodes are in arrays of one length. The plan stands at the end of `words`, from `front` on.
fn round_on(
    tables: &[u8],
    n: u8,
    list: &mut [u8],
    used: usize,
    words: &mut [u8],
    old: &mut [u8],
    front: usize,
    state: StepState,
    allowed: usize,
    limit: usize,
    own: &mut [u8],
    first: &mut [u16],
    second: &mut [u16],
    sizes: &mut [u16],
) -> Round
    requires n_value { (n ≡ actions tables.now) × Lawful tables.now × (limit ≤ most_words) × (used ≤ length list.old)
        × (state.steps + allowed < 18446744073709551615) }
    requires given { Given tables.now limit words.old old.old front state }
    requires limit_in_bounds { (limit + 256 ≤ length own.old) × (length own.old ≤ most_nodes)
        × (length first.old ≡ length own.old) × (length second.old ≡ length own.old)
        × (length sizes.old ≡ length own.old) }
    ensures { RoundOf tables.now limit allowed used
        words.old old.old list.old
        words.new old.new list.new front state result }
{
    let mut stack = [0u16; MOST_WORDS];
    let mut todo = [0u16; MOST_WORDS];
    graph::load_words(&words[front..], &mut todo, front);
    let reading = Reading {
        height: 0,
        rest: front,
        count: FIRST_NODE as usize,
        read: 0,
        size: MOST_WORDS - front,
    };
    let made = recording::make_steps(
        tables,
        n,
        &mut *list,
        used,
        &mut *own,
        &mut *first,
        &mut *second,
        &mut *sizes,
        &mut stack,
        &mut todo,
        reading,
        state,
        allowed,
        limit,
    );
    let reached = made.reading;
    let count = reached.count;
    let start = write_out(
        &own[..count],
        &first[..count],
        &second[..count],
        &mut stack,
        reached.height,
        &todo,
        reached.rest,
        words,
    );
    let remaining = made.allowed;
    if remaining < allowed {
        put_redex(
            &own[..count],
            &first[..count],
            &second[..count],
            &mut stack,
            made.cut,
            old,
        );
    }
    let last = made.state;
    let ending = made.ending;
    Round {
        front: start,
        state: last,
        allowed: remaining,
        used: made.used,
        ending,
    }
}

// A round on a graph of so many nodes.
fn round_in<const NODES: usize>(
    tables: &[u8],
    n: u8,
    list: &mut [u8],
    used: usize,
    words: &mut [u8],
    old: &mut [u8],
    front: usize,
    state: StepState,
    allowed: usize,
    limit: usize,
) -> Round
    requires n_value { (n ≡ actions tables.now) × Lawful tables.now × (limit ≤ most_words) × (used ≤ length list.old)
        × (state.steps + allowed < 18446744073709551615) }
    requires given { Given tables.now limit words.old old.old front state }
    requires nodes { (limit + 256 ≤ NODES) × (NODES ≤ most_nodes) }
    ensures { RoundOf tables.now limit allowed used
        words.old old.old list.old
        words.new old.new list.new front state result }
{
    let mut own = [0u8; NODES];
    let mut first = [0u16; NODES];
    let mut second = [0u16; NODES];
    let mut sizes = [0u16; NODES];
    round_on(
        tables,
        n,
        list,
        used,
        words,
        old,
        front,
        state,
        allowed,
        limit,
        &mut own,
        &mut first,
        &mut second,
        &mut sizes,
    )
}

// A round on a graph of few nodes where the limit is small, else of all.
pub fn make_round(
    tables: &[u8],
    n: u8,
    list: &mut [u8],
    used: usize,
    words: &mut [u8],
    old: &mut [u8],
    front: usize,
    state: StepState,
    allowed: usize,
    limit: usize,
) -> Round
    requires n_value { (n ≡ actions tables.now) × Lawful tables.now × (limit ≤ most_words) × (used ≤ length list.old)
        × (state.steps + allowed < 18446744073709551615) }
    requires given { Given tables.now limit words.old old.old front state }
    ensures { RoundOf tables.now limit allowed used
        words.old old.old list.old
        words.new old.new list.new front state result }
{
    if limit <= FEW_WORDS {
        round_in::<FEW_NODES>(
            tables, n, list, used, words, old, front, state, allowed, limit,
        )
    } else {
        round_in::<MOST_NODES>(
            tables, n, list, used, words, old, front, state, allowed, limit,
        )
    }
}
