// The unfolding's steps on a graph of terms. Terms that are read stand on a stack as entries, free of redexes; entries still to read wait at the
// end of another array. A right side is put in as entries, its letters not written out, so that a step costs the words of its law alone.
#![tactic(auto)]

ghost use Rattle.std.specs.Prelude.{◌≡◌, ◌+◌, ◌≤◌, ◌<◌, length, set};
ghost use Rattle.tables.specs.Tables.{actions};
ghost use Rattle.tables.specs.Lawful.{Lawful};
ghost use Rattle.graphsteps.specs.Holding.{arrays, Fits, SomePlan, Signed, TakenFor, SizesOf, size_under, after_term};
ghost use Rattle.graphsteps.specs.Holding.{after_sign, with_term, with_sign, with_step, AdvancedOn};
ghost use Rattle.graphsteps.specs.Stopping.{stop_number};
ghost use Rattle.areas.specs.Area.{most_words};
ghost use Rattle.graph.specs.Graph.{most_nodes};

use graph::FIRST_NODE;
use redexes::Bounds;

// How far the reading has come: entries on the stack, where the entries still to read begin, nodes in use; the words of the stack and of the
// whole plan.
#[derive(Clone, Copy)]
pub struct Reading {
    pub height: usize,
    pub rest: usize,
    pub count: usize,
    pub read: usize,
    pub size: usize,
}

impl Reading {
    // A term of so many words is read.
    pub fn after_term(self, words: usize) -> Reading
        requires { (self.height < most_words) × (self.rest < most_words) × (self.read ≤ most_words) × (words < 65536) }
        ensures { result ≡ with_term self words }
    {
        Reading {
            height: self.height + 1,
            rest: self.rest + 1,
            count: self.count,
            read: self.read + words,
            size: self.size,
        }
    }

    // A sign is read as a node, which stands on so many entries.
    pub fn after_sign(self, under: usize) -> Reading
        requires { (under < most_words) × (self.rest < most_words) × (self.count < most_nodes) × (self.read ≤ most_words) }
        ensures { result ≡ with_sign self under }
    {
        Reading {
            height: under + 1,
            rest: self.rest + 1,
            count: self.count + 1,
            read: self.read + 1,
            size: self.size,
        }
    }

    // A step is made: its subplan stood on so many entries and started at a place; the right side is to be read from `rest` on.
    pub fn after_step(self, under: usize, rest: usize, at: usize, size: usize) -> Reading
        ensures { result ≡ with_step self under rest at size }
    {
        Reading {
            height: under,
            rest,
            count: self.count,
            read: at,
            size,
        }
    }
}

// The last step: where its subplan started, how many words it had and how many came in its place; its sign and the entries of its operands.
#[derive(Clone, Copy)]
pub struct Cut {
    pub at: usize,
    pub old: usize,
    pub new: usize,
    pub word: u8,
    pub a: u16,
    pub b: u16,
}

// The operands of a sign (the same entry twice for a sign of one), and how many entries are under them.
#[derive(Clone, Copy)]
pub struct Operands {
    pub a: u16,
    pub b: u16,
    pub under: usize,
}

// Why the next step is not made, in the order in which it is asked.
#[derive(Clone, Copy, Debug, PartialEq, Eq)]
pub enum Stop {
    AllowanceSpent,
    ListFull,
    TooLong,
}

impl Stop {
    // The number by which the documents name it.
    pub fn number(self) -> u8
        ensures { result ≡ stop_number self }
    {
        match self {
            Stop::AllowanceSpent => 34,
            Stop::ListFull => 35,
            Stop::TooLong => 36,
        }
    }
}

// What comes of the next entry: it is read; or a step is made there by a law; or the step is not made; or it would become a node, and none is
// left.
#[derive(Clone, Copy)]
pub enum NextEntry {
    Read(Reading),
    Step(u8, Reading, Cut),
    Stopped(Stop),
    NoNode,
}

// Takes a sign's operands from the stack.
fn take_operands(stack: &[u16], height: usize, word: u8) -> Operands
    requires { Signed stack.now height word }
    ensures { TakenFor word stack.now height result }
{
    let b = stack[height - 1];
    if plans::takes_two(word) {
        return Operands {
            a: stack[height - 2],
            b,
            under: height - 2,
        };
    }
    Operands {
        a: b,
        b,
        under: height - 1,
    }
}

// How many words a sign with its operands has.
fn redex_size(sizes: &[u16], word: u8, operands: Operands) -> usize
    requires { SizesOf sizes.now word operands }
    ensures { (result ≡ size_under sizes.now word operands) × (result < 200000) }
{
    let first = graph::size_of(sizes, operands.a);
    if plans::takes_two(word) {
        return first + graph::size_of(sizes, operands.b) + 1;
    }
    first + 1
}

// Reads an entry that stands for a term.
fn read_term(sizes: &[u16], stack: &mut [u16], reading: Reading, v: u16) -> Reading
    requires height_in_bounds { (reading.height < length stack.old) × (reading.rest < most_words) × (reading.read ≤ most_words)
        × (length stack.old ≡ most_words) }
    requires v_in_bounds { 256 ≤ v → v < length sizes.now }
    ensures { (result ≡ after_term sizes.now reading v) × (stack.new ≡ set stack.old reading.height v) }
{
    let height = reading.height;
    let size = graph::size_of(sizes, v);
    stack[height] = v;
    reading.after_term(size)
}

// Reads a sign at which no law fits: it becomes a node.
fn read_sign(
    own: &mut [u8],
    first: &mut [u16],
    second: &mut [u16],
    sizes: &mut [u16],
    stack: &mut [u16],
    reading: Reading,
    word: u8,
    operands: Operands,
    size: usize,
) -> Reading
    requires own_len_bound { (length own.old ≤ most_nodes) × (length first.old ≡ length own.old)
        × (length second.old ≡ length own.old) × (length sizes.old ≡ length own.old)
        × (length stack.old ≡ most_words) }
    requires count_in_bounds { (reading.count < length own.old) × (reading.rest < most_words) × (reading.read ≤ most_words)
        × (operands.under < most_words) × (size < 65536) }
    ensures { (result ≡ after_sign reading operands)
        × (own.new ≡ set own.old reading.count word)
        × (first.new ≡ set first.old reading.count operands.a)
        × (second.new ≡ set second.old reading.count operands.b)
        × (sizes.new ≡ set sizes.old reading.count size)
        × (stack.new ≡ set stack.old operands.under reading.count) }
{
    let count = reading.count;
    let under = operands.under;
    own[count] = word;
    first[count] = operands.a;
    second[count] = operands.b;
    sizes[count] = size as u16;
    stack[under] = count as u16;
    reading.after_sign(under)
}

// Reads one entry more. At a sign where one of laws 5 to 32 fits, the step is made, unless, asked in this order, no step is allowed (34), the
// list has no room for three bytes (35), or the plan would have more than limit words (36).
pub fn advance(
    tables: &[u8],
    n: u8,
    own: &mut [u8],
    first: &mut [u16],
    second: &mut [u16],
    sizes: &mut [u16],
    stack: &mut [u16],
    todo: &mut [u16],
    reading: Reading,
    allowed: usize,
    room: usize,
    limit: usize,
) -> NextEntry
    requires n_value { (n ≡ actions tables.now) × Lawful tables.now × (limit ≤ most_words) × (reading.rest < most_words) }
    requires fits { Fits (arrays own.old first.old second.old sizes.old stack.old todo.old) reading
        × SomePlan tables.now limit (arrays own.old first.old second.old sizes.old stack.old todo.old) reading }
    ensures { AdvancedOn tables.now limit allowed room
        (arrays own.old first.old second.old sizes.old stack.old todo.old)
        (arrays own.new first.new second.new sizes.new stack.new todo.new)
        reading result }
{
    let rest = reading.rest;
    let count = reading.count;
    let v = todo[rest];
    if FIRST_NODE <= v {
        return NextEntry::Read(read_term(&*sizes, stack, reading, v));
    }
    if v <= n as u16 {
        return NextEntry::Read(read_term(&*sizes, stack, reading, v));
    }
    let word = v as u8;
    let operands = take_operands(&*stack, reading.height, word);
    let old = redex_size(&*sizes, word, operands);
    let Some(redex) = redexes::redex_at(
        tables,
        &own[..count],
        &first[..count],
        &second[..count],
        word,
        operands.a,
        operands.b,
    ) else {
        if count == own.len() {
            return NextEntry::NoNode;
        }
        return NextEntry::Read(read_sign(
            own, first, second, sizes, stack, reading, word, operands, old,
        ));
    };
    if allowed == 0 {
        return NextEntry::Stopped(Stop::AllowanceSpent);
    }
    if room < 3 {
        return NextEntry::Stopped(Stop::ListFull);
    }
    let kept = reading.size - old;
    let bounds = Bounds {
        rest: rest + 1,
        most: limit - kept,
    };
    let Some(placed) = redexes::put_side(tables, &*sizes, redex, todo, bounds) else {
        return NextEntry::Stopped(Stop::TooLong);
    };
    let new = placed.size;
    let size = kept + new;
    let at = reading.read + 1 - old;
    let next = reading.after_step(operands.under, placed.front, at, size);
    let cut = Cut {
        at,
        old,
        new,
        word,
        a: operands.a,
        b: operands.b,
    };
    NextEntry::Step(redex.law, next, cut)
}
