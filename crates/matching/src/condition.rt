// The conditions of the laws, on the words that a left side's letters reach over.
ghost use Rattle.std.specs.Prelude.{◌≡◌, ◌<◌, length};
ghost use Rattle.tables.specs.Tables.{blocked, below};
ghost use Rattle.laws.specs.Laws.{same_bytes};
ghost use Rattle.matching.specs.Check.{check_at, letter, word_from, set_from, holds_of};
ghost use Rattle.matching.specs.Right.{Reaches};

use crate::{Letters, same_words};

// What must hold besides the fit of a left side.
#[derive(Clone, Copy)]
pub enum Check {
    Always,
    Same,
    InSet,
    NotInSet,
    Below,
    NotBelow,
}

// The condition of a law. (An enum and one `match` on it: a closure for each law would take the same arguments and say the same.)
pub fn check_of(law: u8) -> Check
    ensures { result ≡ check_at law }
{
    match law {
        4 => Check::Same,
        20 => Check::NotInSet,
        21 => Check::InSet,
        24 => Check::NotBelow,
        25 => Check::Below,
        _ => Check::Always,
    }
}

// The word where letter k starts; 0 past the plan's end.
pub fn word_at(plan: &[u8], letters: &Letters, k: usize) -> u8
    requires { k < 7 }
    ensures { result ≡ word_from plan.now letters.now.from k }
{
    let at = letters.from[k] as usize;
    if at < plan.len() { plan[at] } else { 0 }
}

// The set of the encapsulation where letter 5 starts.
pub fn set_at(plan: &[u8], letters: &Letters) -> u8
    ensures { result ≡ set_from plan.now letters.now.from }
{
    let word = word_at(plan, letters, 5);
    if word < 80 { 0 } else { word - 80 }
}

// Whether a is in the set.
pub fn in_set(tables: &[u8], plan: &[u8], letters: &Letters) -> bool
    ensures { result ≡ blocked tables.now (set_from plan.now letters.now.from)
        (word_from plan.now letters.now.from 3) }
{
    let set = set_at(plan, letters);
    let a = word_at(plan, letters, 3);
    tables::is_blocked(tables, set, a)
}

// Whether a is below b.
pub fn a_below_b(tables: &[u8], plan: &[u8], letters: &Letters) -> bool
    ensures { result ≡ below tables.now (word_from plan.now letters.now.from 3)
        (word_from plan.now letters.now.from 4) }
{
    let a = word_at(plan, letters, 3);
    let b = word_at(plan, letters, 4);
    tables::is_below(tables, a, b)
}

// Whether x and y are equal in their words.
pub fn same_letters(plan: &[u8], letters: &Letters) -> bool
    requires { Reaches plan.now letters.now.from letters.now.to }
    ensures { result ≡ same_bytes (letter plan.now letters.now.from letters.now.to 0)
        (letter plan.now letters.now.from letters.now.to 1) }
{
    let a = letters.from[0] as usize;
    let b = letters.to[0] as usize;
    let c = letters.from[1] as usize;
    let d = letters.to[1] as usize;
    same_words(&plan[a..b], &plan[c..d])
}

// Whether a law's condition holds of what its letters reach over.
pub fn holds(law: u8, tables: &[u8], plan: &[u8], letters: &Letters) -> bool
    requires { Reaches plan.now letters.now.from letters.now.to }
    ensures { result ≡ holds_of (check_at law) tables.now plan.now letters.now.from letters.now.to }
{
    let check = check_of(law);
    match check {
        Check::Always => true,
        Check::Same => same_letters(plan, letters),
        Check::InSet => in_set(tables, plan, letters),
        Check::NotInSet => !in_set(tables, plan, letters),
        Check::Below => a_below_b(tables, plan, letters),
        Check::NotBelow => !a_below_b(tables, plan, letters),
    }
}
