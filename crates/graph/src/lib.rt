// Terms as a graph of nodes: entries, their sizes, and their words written out.
// An entry below 256 is a word; from 256 on it is a node.
#![tactic(auto)]

ghost use Rattle.std.specs.Prelude.{◌≡◌, ◌+◌, ◌-◌, ◌≤◌, ◌<◌, length, drop};
ghost use Rattle.areas.specs.Area.{overwrite};
ghost use Rattle.plans.specs.Stack.{stacked};
ghost use Rattle.graph.specs.Graph.{graph, onto, entry_size, Writable, WroteBack};

// Nodes begin at 256, so that every word is an entry too.
pub const FIRST_NODE: u16 = 256;

// The greatest length of the arrays of nodes.
pub const MOST_NODES: usize = 32768;

// How many words an entry is written as.
#[tactic(auto, unfolding(crate::specs::Graph::entry_size))]
pub fn size_of(sizes: &[u16], v: u16) -> usize
    requires { 256 ≤ v → v < length sizes.now }
    ensures { (result ≡ entry_size sizes.now v) × (result < 65536) }
{
    if v < FIRST_NODE {
        return 1;
    }
    sizes[v as usize] as usize
}

// Words put into an array of entries from a place on.
pub fn load_words(src: &[u8], dst: &mut [u16], at: usize)
    requires { at + length src.now ≤ length dst.old }
    ensures { dst.new ≡ overwrite dst.old at src.now }
{
    for (i, &word) in src.iter().enumerate() {
        dst[at + i] = u16::from(word);
    }
}

// Puts the entries still to read on a stack, one after another; how many entries it has then.
pub fn push_rest(todo: &[u16], rest: usize, stack: &mut [u16], height: usize) -> usize
    requires { (rest ≤ length todo.now) × (height + (length todo.now - rest) ≤ length stack.old) }
    ensures { (result ≡ height + (length todo.now - rest))
        × (stacked stack.new result ≡ onto (drop rest todo.now) (stacked stack.old height)) }
{
    let left = &todo[rest..];
    let end = height + left.len();
    stack[height..end].copy_from_slice(left);
    end
}

// Writes the first entries of a stack, from the last word to the first, so that the last word stands before place `end`; where the first word
// stands. The stack is used up.
pub fn write_back(
    own: &[u8],
    first: &[u16],
    second: &[u16],
    stack: &mut [u16],
    height: usize,
    dst: &mut [u8],
    end: usize,
) -> usize
    requires { Writable (graph own.now first.now second.now) stack.old height dst.old end }
    ensures { WroteBack (graph own.now first.now second.now)
        stack.old height dst.old dst.new end result }
{
    // A stack is an array with its height beside, since nothing here is on a heap.
    let mut h: usize = height;
    let mut e: usize = end;
    while 0 < h {
        h -= 1;
        e -= 1;
        let v = stack[h];
        if v < FIRST_NODE {
            dst[e] = v as u8;
        } else {
            let word = own[v as usize];
            dst[e] = word;
            stack[h] = first[v as usize];
            h += 1;
            if plans::takes_two(word) {
                stack[h] = second[v as usize];
                h += 1;
            }
        }
    }
    e
}
