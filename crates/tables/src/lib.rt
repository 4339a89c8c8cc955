// Tables: how the 2,305 bytes are read and judged.
#![tactic(auto)]

ghost use Rattle.std.specs.Prelude.{◌≡◌, ℕ, Bool, ◌+◌, ◌*◌, ◌||◌, ◌↔◌, ◌≤◌, get_or, ltb, Ok};
ghost use Rattle.refusals.specs.Refusal.{number_of, judged};
ghost use Rattle.tables.specs.Tables.{most_actions, row_length, sets_at, priority_at, entry_of, marked, actions, outside?, communication, below, blocked};
ghost use Rattle.tables.specs.Judging.{entry_right, null_right, group_right, order_right, first_entry, first_triple};
ghost use Rattle.tables.specs.Judging.{first_not_above, count_refusal, priority_entries, shared_entries};
ghost use Rattle.tables.specs.Judging.{communication_refusal, order_refusal, shared_refusal, content_refusal};
ghost use Rattle.tables.specs.Judging.{table_refusal};
ghost use Rattle.tables.specs.Lawful.{Lawful};
ghost use Rattle.tables.specs.Search.{TestsPairs, TestsTriples};

use refusals::{Place, Reason, Refusal};

// The length of tables, and the most actions that they can have.
pub const LENGTH: usize = 2305;

pub const MOST_ACTIONS: u8 = 31;

// Where the parts begin.
const COMMUNICATION: usize = 1;

const PRIORITY: usize = 1025;

const SETS: usize = 2049;

// How many entries a row of a part has, and how many rows of actions and of sets there are.
const ROW: u8 = 32;

const SET_COUNT: u8 = 8;

// Byte i of the tables, and 0 past their end.
fn byte_at(tables: &[u8], i: usize) -> u8
    ensures whole { result ≡ get_or tables.now i 0 }
{
    tables.get(i).copied().unwrap_or(0)
}

// n, the count of actions.
#[tactic(auto, unfolding(crate::specs::Tables::actions))]
pub fn actions_of(tables: &[u8]) -> u8
    ensures whole { result ≡ actions tables.now }
{
    byte_at(tables, 0)
}

// The byte at which the entry of row and column stands, in the part that begins at a byte.
// Tables and that byte stay two parameters and are no struct: the definitions of a part name the two.
fn index_of(start: usize, row: u8, column: u8) -> usize
    requires { start ≤ sets_at }
    ensures { result ≡ start + (row_length * row + column) }
{
    start + (usize::from(ROW) * usize::from(row) + usize::from(column))
}

// The entry of row and column in the part that begins at a byte.
fn entry_at(tables: &[u8], start: usize, row: u8, column: u8) -> u8
    requires { start ≤ sets_at }
    ensures whole { result ≡ entry_of tables.now start row column }
{
    byte_at(tables, index_of(start, row, column))
}

// Whether the entry of row and column in the part that begins at a byte is 1.
fn is_marked(tables: &[u8], start: usize, row: u8, column: u8) -> bool
    requires { start ≤ sets_at }
    ensures whole { result ≡ marked tables.now start row column }
{
    entry_at(tables, start, row, column) == 1
}

// a|b.
#[tactic(auto, unfolding(crate::specs::Tables::communication))]
pub fn communication_of(tables: &[u8], a: u8, b: u8) -> u8
    ensures whole { result ≡ communication tables.now a b }
{
    entry_at(tables, COMMUNICATION, a, b)
}

// Whether a < b in the priority order.
#[tactic(auto, unfolding(crate::specs::Tables::below))]
pub fn is_below(tables: &[u8], a: u8, b: u8) -> bool
    ensures whole { result ≡ below tables.now a b }
{
    is_marked(tables, PRIORITY, a, b)
}

// Whether action a is in a blocked set.
#[tactic(auto, unfolding(crate::specs::Tables::blocked))]
pub fn is_blocked(tables: &[u8], set: u8, a: u8) -> bool
    ensures whole { result ≡ blocked tables.now set a }
{
    is_marked(tables, SETS, set, a)
}

// Whether a row or a column of actions exceeds n.
fn outside(n: u8, row: u8, column: u8) -> bool
    ensures whole { result ≡ (ltb n row || ltb n column) }
{
    n < row || n < column
}

// Whether an action is outside 1 to n; no set may have such a one.
pub fn is_outside(n: u8, a: u8) -> bool
    ensures whole { result ≡ outside? n a }
{
    a == 0 || n < a
}

// Whether an entry is at most m, and 0 where it must be.
#[tactic(auto, unfolding(crate::specs::Judging::entry_right))]
fn entry_right(m: u8, null: bool, v: u8) -> bool
    ensures whole { result ≡ entry_right m null v }
{
    if null { v == 0 } else { v <= m }
}

// Whether an entry of communication obeys C3: δ|a = a|δ = δ.
#[tactic(auto, unfolding(crate::specs::Judging::null_right))]
fn null_right(tables: &[u8], a: u8, b: u8) -> bool
    ensures whole { result ≡ null_right (communication tables.now) a b }
{
    a != 0 && b != 0 || communication_of(tables, a, b) == 0
}

// Whether a triple obeys C2: (a|b)|c = a|(b|c).
#[tactic(auto, unfolding(crate::specs::Judging::group_right))]
fn group_right(tables: &[u8], a: u8, b: u8, c: u8) -> bool
    ensures whole { result ≡ group_right (communication tables.now) a b c }
{
    let left = communication_of(tables, communication_of(tables, a, b), c);
    left == communication_of(tables, a, communication_of(tables, b, c))
}

// Whether a triple obeys the order's conditions: not a<a; not a<b and b<a; a<c where a<b and b<c.
#[tactic(auto, unfolding(crate::specs::Judging::order_right))]
fn order_right(tables: &[u8], start: usize, a: u8, b: u8, c: u8) -> bool
    requires { start ≤ sets_at }
    ensures whole { result ≡ order_right (marked tables.now start) a b c }
{
    let below = |x, y| is_marked(tables, start, x, y);
    !below(a, a) && !(below(a, b) && below(b, a)) && !(below(a, b) && below(b, c) && !below(a, c))
}

// The first entry, row by row, that fails a test, in the part of so many rows that begins at a byte, refused for a reason.
fn first_entry<F: Fn(u8, u8) -> bool>(
    reason: Reason,
    start: usize,
    rows: u8,
    is_right: F,
) -> Result<(), Refusal>
    requires callable { F.IsAlwaysCallable is_right }
    requires start_in { start ≤ sets_at }
    ensures whole { (right : ℕ → ℕ → Bool) → TestsPairs (F.post is_right) right → result ≡ judged (first_entry (number_of reason) right start rows) }
{
    for row in 0..rows {
        for column in 0..ROW {
            if !is_right(row, column) {
                let place = Place::Byte(index_of(start, row, column));
                return Err(Refusal::at(reason, place));
            }
        }
    }
    Ok(())
}

// Refusal 7: the first action that 0 is not below, in the priority part that begins at a byte.
// It goes over actions 1 to n of one row, so it is no plainer by `first_entry`, which goes over whole rows.
fn first_not_above(tables: &[u8], start: usize, n: u8) -> Result<(), Refusal>
    requires { start ≤ sets_at }
    ensures whole { result ≡ judged (first_not_above tables.now start n) }
{
    for a in 1..=n {
        if !is_marked(tables, start, 0, a) {
            let place = Place::Byte(index_of(start, 0, a));
            return Err(Refusal::at(Reason::NotAboveNull, place));
        }
    }
    Ok(())
}

// The first triple of actions, a slowest, that fails a test, refused for a reason.
// Document 01 names this form: three nested loops, left by a label that yields the triple.
fn first_triple<F: Fn(u8, u8, u8) -> bool>(
    reason: Reason,
    n: u8,
    is_right: F,
) -> Result<(), Refusal>
    requires callable { F.IsAlwaysCallable is_right }
    requires few { n ≤ most_actions }
    ensures whole { (right : ℕ → ℕ → ℕ → Bool) → TestsTriples (F.post is_right) right → result ≡ judged (first_triple (number_of reason) right n) }
{
    let end = n + 1;
    let found = 'search: {
        for a in 0..end {
            for b in 0..end {
                for c in 0..end {
                    if !is_right(a, b, c) {
                        break 'search Some((a, b, c));
                    }
                }
            }
        }
        None
    };
    match found {
        None => Ok(()),
        Some((a, b, c)) => Err(Refusal::at(reason, Place::Triple(a, b, c))),
    }
}

// Refusal 2: n is 0 or too large.
fn judge_count(n: u8) -> Result<(), Refusal>
    ensures whole { result ≡ judged (count_refusal n) }
{
    if 1 <= n && n <= MOST_ACTIONS {
        return Ok(());
    }
    Err(Refusal::from(Reason::ActionCount))
}

// Refusal 3: the entries of communication, priority and sets.
#[tactic(auto, unfolding(crate::specs::Judging::byte_right, crate::specs::Tables::communication))]
fn judge_entries(tables: &[u8], n: u8) -> Result<(), Refusal>
    ensures whole { result ≡ judged (shared_entries tables.now sets_at n (priority_entries tables.now priority_at n)) }
{
    first_entry(Reason::EntryOutside, COMMUNICATION, ROW, |a, b| {
        entry_right(n, outside(n, a, b), entry_at(tables, COMMUNICATION, a, b))
    })?;
    first_entry(Reason::EntryOutside, PRIORITY, ROW, |a, b| {
        entry_right(1, outside(n, a, b), entry_at(tables, PRIORITY, a, b))
    })?;
    first_entry(Reason::EntryOutside, SETS, SET_COUNT, |set, a| {
        entry_right(1, is_outside(n, a), entry_at(tables, SETS, set, a))
    })
}

// Refusals 4 to 6: the laws of communication.
#[tactic(auto, unfolding(crate::specs::Judging::swap_right))]
fn judge_communication(tables: &[u8], n: u8) -> Result<(), Refusal>
    requires { n ≤ most_actions }
    ensures whole { result ≡ judged (communication_refusal tables.now n) }
{
    first_entry(Reason::NullEntry, COMMUNICATION, ROW, |a, b| {
        null_right(tables, a, b)
    })?;
    first_entry(Reason::NotCommutative, COMMUNICATION, ROW, |a, b| {
        communication_of(tables, a, b) == communication_of(tables, b, a)
    })?;
    first_triple(Reason::NotAssociative, n, |a, b, c| {
        group_right(tables, a, b, c)
    })
}

// Refusals 7 and 8: the order of the priority part that begins at a byte.
fn judge_order(tables: &[u8], start: usize, n: u8) -> Result<(), Refusal>
    requires { (start ≤ sets_at) × (n ≤ most_actions) }
    ensures whole { result ≡ judged (order_refusal tables.now start n) }
{
    first_not_above(tables, start, n)?;
    first_triple(Reason::NotAnOrder, n, |a, b, c| {
        order_right(tables, start, a, b, c)
    })
}

// Refusals 2 to 6: n, communication and sets, with the entries of priority where they stand.
fn judge_shared(tables: &[u8]) -> Result<(), Refusal>
    ensures whole { result ≡ judged
        (shared_refusal tables.now sets_at (priority_entries tables.now priority_at (actions tables.now))) }
{
    let n = actions_of(tables);
    judge_count(n)?;
    judge_entries(tables, n)?;
    judge_communication(tables, n)
}

// Refusals 2 to 8, of tables of the right length.
#[tactic(auto, unfolding(crate::specs::Judging::content_refusal))]
fn judge_content(tables: &[u8]) -> Result<(), Refusal>
    ensures whole { result ≡ judged (content_refusal tables.now) }
{
    judge_shared(tables)?;
    judge_order(tables, PRIORITY, actions_of(tables))
}

// Refusals 1 to 8: whether tables are accepted, and if not why, and where.
#[tactic(auto, using(crate::proofs::Lawful::answers_lawful), unfolding(crate::specs::Judging::table_refusal))]
pub fn judge_tables(tables: &[u8]) -> Result<(), Refusal>
    ensures whole { result ≡ judged (table_refusal tables.now) }
    ensures accepts { (result ≡ Ok tt) ↔ Lawful tables.now }
{
    if tables.len() != LENGTH {
        return Err(Refusal::from(Reason::TablesLength));
    }
    judge_content(tables)
}
