// The laws at the root of a term in a graph: the lowest of laws 5 to 32 that fits there, told by what the operands are, and its right side as
// entries.
#![tactic(auto)]

mod root;

ghost use Rattle.std.specs.Prelude.{◌≡◌, ◌≤◌, ◌<◌, length, IfSome};
ghost use Rattle.tables.specs.Tables.{actions};
ghost use Rattle.tables.specs.Lawful.{Lawful};
ghost use Rattle.graph.specs.Graph.{graph, Nodes};
ghost use Rattle.laws.specs.Laws.{highest_law, first_choice};
ghost use Rattle.redexes.specs.Slots.{RootTerm, ChosenRoot, slots_of, side_entries, entries_size, SizesReach, PutReady, PutBefore};

// A law that fits, and what its letters stand for: the entries of x, y and z, the actions a and b, and ∂'s word.
#[derive(Clone, Copy)]
pub struct Redex {
    pub law: u8,
    pub x: u16,
    pub y: u16,
    pub z: u16,
    pub a: u8,
    pub b: u8,
    pub set: u16,
}

// A right side put before the entries still to read: where it begins, and how many words it is written as.
#[derive(Clone, Copy)]
pub struct Placed {
    pub front: usize,
    pub size: usize,
}

// Where a right side is put: before place `rest`, if it is at most `most` words.
#[derive(Clone, Copy)]
pub struct Bounds {
    pub rest: usize,
    pub most: usize,
}

// The law that fits over an operator's word and the entries of its operands, if one does.
pub fn redex_at(
    tables: &[u8],
    own: &[u8],
    first: &[u16],
    second: &[u16],
    word: u8,
    a: u16,
    b: u16,
) -> Option<Redex>
    requires { Lawful tables.now × Nodes (graph own.now first.now second.now)
        × RootTerm (actions tables.now) (graph own.now first.now second.now) word a b }
    ensures { ChosenRoot tables.now (actions tables.now)
        (graph own.now first.now second.now) word a b result
        × IfSome result (λ redex. (redex.a ≤ 31) × (redex.b ≤ 31)) }
{
    if word == 64 {
        return root::choice_redex(a, b);
    }
    if word == 66 {
        return Some(root::on_plans(11, a, b, 0));
    }
    let p = root::operand_at(own, first, second, a);
    match word {
        65 => root::sequence_redex(b, p),
        67 => root::left_merge_redex(b, p),
        68 => root::communication_redex(a, b, p, root::operand_at(own, first, second, b)),
        69 => root::unless_redex(tables, a, b, p, root::operand_at(own, first, second, b)),
        70 => root::priority_redex(p),
        80..=87 => root::encapsulation_redex(tables, word, p),
        _ => None,
    }
}

// How many words entries are written as.
fn entries_size(sizes: &[u16], entries: &[u16]) -> usize
    requires { (length entries.now ≤ 11) × SizesReach entries.now sizes.now }
    ensures { (result ≡ entries_size sizes.now entries.now) × (result < 1000000) }
{
    let mut size = 0;
    for &v in entries {
        size += graph::size_of(sizes, v);
    }
    size
}

// Puts entries before the entries still to read, unless they are more words than they may be.
fn put_entries(sizes: &[u16], todo: &mut [u16], at: Bounds, entries: &[u16]) -> Option<Placed>
    requires { (length entries.now ≤ 11) × (at.rest ≤ length todo.old) × PutReady sizes.now entries.now at.rest at.most }
    ensures { PutBefore sizes.now entries.now todo.old at.rest at.most todo.new result }
{
    let size = entries_size(sizes, entries);
    if at.most < size {
        return None;
    }
    let front = at.rest - entries.len();
    todo[front..at.rest].copy_from_slice(entries);
    Some(Placed { front, size })
}

// Puts the right side of a law before the entries still to read, unless it is more words than it may be.
pub fn put_side(
    tables: &[u8],
    sizes: &[u16],
    redex: Redex,
    todo: &mut [u16],
    at: Bounds,
) -> Option<Placed>
    requires first_choice_le_law { (first_choice ≤ redex.law) × (redex.law ≤ highest_law) × (at.rest ≤ length todo.old) }
    requires put_ready { PutReady sizes.now (side_entries tables.now redex.law (slots_of redex)) at.rest at.most }
    ensures { PutBefore sizes.now (side_entries tables.now redex.law (slots_of redex))
        todo.old at.rest at.most todo.new result }
{
    let x = redex.x;
    let y = redex.y;
    let z = redex.z;
    let a = redex.a as u16;
    let b = redex.b as u16;
    let s = redex.set;
    // A line for each law: alternatives side by side, as `7 | 8`, give their arm no fact that a proof can name.
    match redex.law {
        5 => put_entries(sizes, todo, at, &[x, z, 65, y, z, 65, 64]),
        6 => put_entries(sizes, todo, at, &[x, y, z, 65, 65]),
        7 => put_entries(sizes, todo, at, &[x]),
        8 => put_entries(sizes, todo, at, &[x]),
        9 => put_entries(sizes, todo, at, &[0]),
        10 => {
            let c = tables::communication_of(tables, redex.a, redex.b);
            put_entries(sizes, todo, at, &[c as u16])
        }
        11 => put_entries(sizes, todo, at, &[x, y, 67, y, x, 67, 64, x, y, 68, 64]),
        12 => put_entries(sizes, todo, at, &[a, x, 65]),
        13 => put_entries(sizes, todo, at, &[a, x, y, 66, 65]),
        14 => put_entries(sizes, todo, at, &[x, z, 67, y, z, 67, 64]),
        15 => put_entries(sizes, todo, at, &[a, b, 68, x, 65]),
        16 => put_entries(sizes, todo, at, &[a, b, 68, x, 65]),
        17 => put_entries(sizes, todo, at, &[a, b, 68, x, y, 66, 65]),
        18 => put_entries(sizes, todo, at, &[x, z, 68, y, z, 68, 64]),
        19 => put_entries(sizes, todo, at, &[x, y, 68, x, z, 68, 64]),
        20 => put_entries(sizes, todo, at, &[a]),
        21 => put_entries(sizes, todo, at, &[0]),
        22 => put_entries(sizes, todo, at, &[x, s, y, s, 64]),
        23 => put_entries(sizes, todo, at, &[x, s, y, s, 65]),
        24 => put_entries(sizes, todo, at, &[a]),
        25 => put_entries(sizes, todo, at, &[0]),
        26 => put_entries(sizes, todo, at, &[x, y, 69]),
        27 => put_entries(sizes, todo, at, &[x, y, 69, z, 69]),
        28 => put_entries(sizes, todo, at, &[x, z, 69, y, 65]),
        29 => put_entries(sizes, todo, at, &[x, z, 69, y, z, 69, 64]),
        30 => put_entries(sizes, todo, at, &[a]),
        31 => put_entries(sizes, todo, at, &[x, 70, y, 70, 65]),
        _ => put_entries(sizes, todo, at, &[x, 70, y, 69, y, 70, x, 69, 64]),
    }
}
