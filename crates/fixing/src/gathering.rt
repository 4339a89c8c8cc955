// The summands of a plan gathered on a stack, word by word: + puts two parts side by side, · closes the last part and puts it behind its action.
ghost use Rattle.std.specs.Prelude.{◌≡◌, ◌+◌, ◌-◌, ◌≤◌, ◌<◌, length, get_or, set};
ghost use Rattle.areas.specs.Area.{most_words};
ghost use Rattle.chains.specs.Chain.{Arrays};
ghost use Rattle.fixing.specs.Gathered.{Gathered, Closed, Behind};

use chains::CHOICE;

// The word of sequence, ·.
const SEQUENCE: u8 = 65;

// How many summands stand on the stack, and in how many parts.
#[derive(Clone, Copy)]
pub struct Stack {
    pub entries: usize,
    pub parts: usize,
}

// Sorts the summands of a part, keeps each once and links them, the last to a place; how many words they have, with a sign for each.
pub fn close(
    words: &[u8],
    links: &mut [u16],
    sizes: &[u16],
    ends: &[u16],
    part: &mut [u16],
    buffer: &mut [u16],
    at: u16,
) -> usize
    requires { Arrays links.old sizes.now × (length ends.now ≡ most_words) × (length buffer.old ≡ length part.old)
        × (1 ≤ length part.old) × (length part.old ≤ most_words) × (at ≤ most_words) }
    ensures { Closed words.now links.old sizes.now ends.now part.old at
        links.new part.new result }
{
    let before = |p: u16, q: u16| chains::comes_before(words, &*links, sizes, p, q);
    chains::sort(before, part, buffer);
    let count = chains::keep_once(before, part);
    let kept = &part[..count];
    chains::link(links, ends, kept, at);
    chains::total_size(sizes, kept)
}

// Puts an action on the stack, as a part of one summand of one word.
fn take_action(
    i: usize,
    sizes: &mut [u16],
    ends: &mut [u16],
    entries: &mut [u16],
    starts: &mut [u16],
    stack: Stack,
) -> Stack
    requires { (i < most_words) × (stack.entries ≤ i) × (stack.parts ≤ i) × (length sizes.old ≡ most_words) × (length ends.old ≡ most_words)
        × (length entries.old ≡ most_words) × (length starts.old ≡ most_words) }
    ensures { (sizes.new ≡ set sizes.old i 1) × (ends.new ≡ set ends.old i i)
        × (entries.new ≡ set entries.old stack.entries i)
        × (starts.new ≡ set starts.old stack.parts stack.entries)
        × (result ≡ record { entries = stack.entries + 1; parts = stack.parts + 1 }) }
{
    let count = stack.entries;
    let parts = stack.parts;
    sizes[i] = 1;
    ends[i] = i as u16;
    entries[count] = i as u16;
    starts[parts] = count as u16;
    Stack {
        entries: count + 1,
        parts: parts + 1,
    }
}

// Puts a closed part behind the action that is the last entry before it: its link goes to the part's first summand, and it ends at the product's word.
fn put_behind(
    entries: &[u16],
    start: usize,
    size: usize,
    i: usize,
    links: &mut [u16],
    sizes: &mut [u16],
    ends: &mut [u16],
)
    requires { (1 ≤ start) × (start < length entries.now) × (length entries.now ≤ most_words) × (get_or entries.now (start - 1) 0 < most_words)
        × (get_or sizes.old (get_or entries.now (start - 1) 0) 0 + size < 65536) × (i < most_words)
        × (length links.old ≡ most_words) × (length sizes.old ≡ most_words) × (length ends.old ≡ most_words) }
    ensures { Behind (get_or entries.now (start - 1) 0) (get_or entries.now start 0) size i
        links.old sizes.old ends.old links.new sizes.new ends.new }
{
    let action = entries[start - 1];
    let end = chains::end_of(&*ends, action);
    let at = action as usize;
    links[end] = entries[start];
    sizes[at] = (sizes[at] as usize + size) as u16;
    ends[at] = i as u16;
}

// Closes the last part of the stack and puts it behind the action that is the last entry before it.
fn take_product(
    plan: &[u8],
    i: usize,
    links: &mut [u16],
    sizes: &mut [u16],
    ends: &mut [u16],
    entries: &mut [u16],
    starts: &[u16],
    buffer: &mut [u16],
    stack: Stack,
) -> Stack
    requires { Gathered plan.now i links.old sizes.old ends.old entries.old starts.now stack.entries stack.parts
        × (length plan.now ≤ most_words) × (i < length plan.now) × (get_or plan.now i 0 ≡ 65) × (length buffer.old ≡ most_words) }
    ensures { Gathered plan.now (i + 1) links.new sizes.new ends.new entries.new starts.now
        result.entries result.parts }
{
    let count = stack.entries;
    let parts = stack.parts;
    if parts < 2 {
        return stack;
    }
    let start = starts[parts - 1] as usize;
    let size = close(
        plan,
        links,
        &*sizes,
        &*ends,
        &mut entries[start..count],
        &mut buffer[start..count],
        i as u16,
    );
    put_behind(&*entries, start, size, i, links, sizes, ends);
    Stack {
        entries: start,
        parts: parts - 1,
    }
}

// Takes one word.
fn take_word(
    plan: &[u8],
    i: usize,
    links: &mut [u16],
    sizes: &mut [u16],
    ends: &mut [u16],
    entries: &mut [u16],
    starts: &mut [u16],
    buffer: &mut [u16],
    stack: Stack,
) -> Stack
    requires { Gathered plan.now i links.old sizes.old ends.old entries.old starts.old stack.entries stack.parts
        × (length plan.now ≤ most_words) × (i < length plan.now) × (length buffer.old ≡ most_words) }
    ensures { Gathered plan.now (i + 1) links.new sizes.new ends.new entries.new starts.new
        result.entries result.parts }
{
    match plan[i] {
        SEQUENCE => take_product(
            plan, i, links, sizes, ends, entries, &*starts, buffer, stack,
        ),
        CHOICE if stack.parts < 2 => stack,
        CHOICE => Stack {
            entries: stack.entries,
            parts: stack.parts - 1,
        },
        _ => take_action(i, sizes, ends, entries, starts, stack),
    }
}

// Gathers the summands of a whole plan.
pub fn gather(
    plan: &[u8],
    links: &mut [u16],
    sizes: &mut [u16],
    ends: &mut [u16],
    entries: &mut [u16],
    starts: &mut [u16],
    buffer: &mut [u16],
) -> Stack
    requires { (length plan.now ≤ most_words) × (length links.old ≡ most_words) × (length sizes.old ≡ most_words) × (length ends.old ≡ most_words)
        × (length entries.old ≡ most_words) × (length starts.old ≡ most_words) × (length buffer.old ≡ most_words) }
    ensures { Gathered plan.now (length plan.now) links.new sizes.new ends.new entries.new
        starts.new result.entries result.parts }
{
    let mut stack = Stack {
        entries: 0,
        parts: 0,
    };
    for i in 0..plan.len() {
        stack = take_word(plan, i, links, sizes, ends, entries, starts, buffer, stack);
    }
    stack
}
