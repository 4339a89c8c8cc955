// The thirty-two laws in code: whether a law fits at a plan's last word, and its right side written out.
// A layer for the crates above: its functions ask that the words can be read and that the starts of their subplans are right.
#![tactic(auto)]

mod condition;
mod left;
mod right;

ghost use Rattle.std.specs.Prelude.{◌≡◌, ◌+◌, ◌≤◌, ◌<◌, length};
ghost use Rattle.std.proofs.Math.Option.{none};
ghost use Rattle.areas.specs.Area.{most_words, Written};
ghost use Rattle.laws.specs.Laws.{same_bytes, highest_law};
ghost use Rattle.matching.specs.Start.{Ready};
ghost use Rattle.matching.specs.Right.{spelled_law, law_size, Reaches};
ghost use Rattle.rewritings.specs.Roots.{law_term};
ghost use Rattle.plans.specs.Judging.{words_refusal};
ghost use Rattle.matching.specs.Tried.{Tried, gives};

use areas::MOST_WORDS;

// The most words of a plan that counts as short.
const FEW_WORDS: usize = 1024;

// Whether two lists of words are equal.
pub fn same_words(v: &[u8], w: &[u8]) -> bool
    ensures { result ≡ same_bytes v.now w.now }
{
    v == w
}

// Where the letters of a law's left side reach over a plan's words: x, y, z, a, b and the set of ∂, each from `from[k]` up to `to[k]`; signs are
// noted in the seventh.
#[derive(Clone, Copy)]
pub struct Letters {
    pub from: [u16; 7],
    pub to: [u16; 7],
}

// Tries a law at the last word: where its letters reach, if it fits.
pub fn law_fits(law: u8, tables: &[u8], n: u8, plan: &[u8], starts: &[u16]) -> Option<Letters>
    requires le_law { (1 ≤ law) × (law ≤ highest_law) }
    requires ready { Ready n plan.now starts.now }
    ensures { Tried tables.now law plan.now (law_term tables.now n law plan.now) result }
{
    let letters = left::match_left(law, n, plan, starts)?;
    if condition::holds(law, tables, plan, &letters) {
        Some(letters)
    } else {
        None
    }
}

// How many words the right side of a law comes to.
pub fn right_len(law: u8, letters: &Letters) -> usize
    requires { (1 ≤ law) × (law ≤ highest_law) }
    ensures { result ≡ law_size law letters.now.from letters.now.to }
{
    right::words_len(right::right_side(law), letters)
}

// Writes out the right side of a law from a place on; the place after it.
pub fn put_side(
    law: u8,
    tables: &[u8],
    plan: &[u8],
    letters: &Letters,
    dst: &mut [u8],
    at: usize,
) -> usize
    requires le_law { (1 ≤ law) × (law ≤ highest_law) × Reaches plan.now letters.now.from letters.now.to }
    requires to_in_bounds { at + length (spelled_law tables.now law plan.now letters.now.from letters.now.to) ≤ length dst.old }
    ensures { Written dst.old dst.new at
        (spelled_law tables.now law plan.now letters.now.from letters.now.to) result }
{
    let a = condition::word_at(plan, letters, 3);
    let b = condition::word_at(plan, letters, 4);
    let entry = tables::communication_of(tables, a, b);
    right::put_words(right::right_side(law), entry, plan, letters, dst, at)
}

// Tries a law at the last word of an accepted plan of at most MOST words, and compares its right side, written out into side, with the words of a
// subplan. The starts of the plan's subplans are found in an array of MOST, which is set to zero first.
fn gives_within<const MOST: usize>(
    law: u8,
    tables: &[u8],
    n: u8,
    plan: &[u8],
    side: &mut [u8],
    there: &[u8],
) -> bool
    requires le_law { (1 ≤ law) × (law ≤ highest_law) × (n ≤ 31) × (words_refusal n plan.now ≡ none) }
    requires plan_in_bounds { (MOST ≤ most_words) × (length plan.now ≤ MOST) × (length there.now ≤ length side.old) }
    ensures { result ≡ gives (law_term tables.now n law plan.now) there.now }
{
    let mut starts = [0u16; MOST];
    paths::find_starts(n, plan, &mut starts);
    let Some(letters) = law_fits(law, tables, n, plan, &starts) else {
        return false;
    };
    // compared first: a right side may be longer than side is
    let size = right_len(law, &letters);
    if size != there.len() {
        return false;
    }
    put_side(law, tables, plan, &letters, &mut *side, 0);
    same_words(&side[..size], there)
}

// Whether a law, applied at the last of the words of an accepted plan, gives exactly the words of a subplan. Side is scratch, as long as the subplan
// at least. A short plan takes a short array of starts.
pub fn law_gives(law: u8, tables: &[u8], n: u8, plan: &[u8], side: &mut [u8], there: &[u8]) -> bool
    requires { (1 ≤ law) × (law ≤ highest_law) × (n ≤ 31) × (words_refusal n plan.now ≡ none) × (length there.now ≤ length side.old) }
    ensures { result ≡ gives (law_term tables.now n law plan.now) there.now }
{
    if plan.len() <= FEW_WORDS {
        return gives_within::<FEW_WORDS>(law, tables, n, plan, side, there);
    }
    gives_within::<MOST_WORDS>(law, tables, n, plan, side, there)
}
