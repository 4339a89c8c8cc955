// The left sides of the laws, matched against the subplan at a plan's last word.
ghost use Rattle.std.specs.Prelude.{◌≡◌, ◌≤◌, ◌<◌, length};
ghost use Rattle.laws.specs.Laws.{law_at, highest_law};
ghost use Rattle.matching.specs.Start.{Ready};
ghost use Rattle.matching.specs.Left.{back, next_of, slot_of, match_words, no_places, MatchFound};

use crate::Letters;

// The left sides of the laws, law 1 first, each from its last word to its first. Letters x, y, z, a, b are
// 96 to 100, and ∂, whose set is a letter too, is 101: numbers, since most of a row is compared with a plan's bytes as it stands.
pub const LEFT: [&[u8]; laws::HIGHEST_LAW as usize] = [
    &[64, 97, 96], // 1: x + y
    &[64, 64, 98, 97, 96], // 2: x + (y + z)
    &[64, 98, 64, 97, 96], // 3: (x + y) + z
    &[64, 97, 96], // 4: x + y, operands equal in their words
    &[65, 98, 64, 97, 96], // 5: (x + y)·z
    &[65, 98, 65, 97, 96], // 6: (x·y)·z
    &[64, 0, 96], // 7: x + δ
    &[64, 96, 0], // 8: δ + x
    &[65, 96, 0], // 9: δ·x
    &[68, 100, 99], // 10: a | b
    &[66, 97, 96], // 11: x ‖ y
    &[67, 96, 99], // 12: a ⌊ x
    &[67, 97, 65, 96, 99], // 13: a·x ⌊ y
    &[67, 98, 64, 97, 96], // 14: (x + y) ⌊ z
    &[68, 100, 65, 96, 99], // 15: a·x | b
    &[68, 65, 96, 100, 99], // 16: a | b·x
    &[68, 65, 97, 100, 65, 96, 99], // 17: a·x | b·y
    &[68, 98, 64, 97, 96], // 18: (x + y) | z
    &[68, 64, 98, 97, 96], // 19: x | (y + z)
    &[101, 99], // 20: ∂(a), a not in the set
    &[101, 99], // 21: ∂(a), a in the set
    &[101, 64, 97, 96], // 22: ∂(x + y)
    &[101, 65, 97, 96], // 23: ∂(x·y)
    &[69, 100, 99], // 24: a ◁ b, not a < b
    &[69, 100, 99], // 25: a ◁ b, a < b
    &[69, 65, 98, 97, 96], // 26: x ◁ y·z
    &[69, 64, 98, 97, 96], // 27: x ◁ (y + z)
    &[69, 98, 65, 97, 96], // 28: x·y ◁ z
    &[69, 98, 64, 97, 96], // 29: (x + y) ◁ z
    &[70, 99], // 30: θ(a)
    &[70, 65, 97, 96], // 31: θ(x·y)
    &[70, 64, 97, 96], // 32: θ(x + y)
];

// The left side of a law.
fn left_side(law: u8) -> &'static [u8]
    requires { (1 ≤ law) × (law ≤ highest_law) }
    ensures { result.now ≡ back (law_at law).lhs }
{
    LEFT[law as usize - 1]
}

// Where the next word back is matched, after one word of a pattern against the subplan that ends before a place, if it fits: a sign must be equal, a letter
// of plans goes back to the subplan's start, a letter of actions takes one action, and ∂ takes an encapsulation.
pub fn next_end(n: u8, plan: &[u8], starts: &[u16], word: u8, end: usize) -> Option<usize>
    requires { (end ≤ length plan.now) × Ready n plan.now starts.now }
    ensures { result ≡ next_of n plan.now word end }
{
    if end == 0 {
        return None;
    }
    let last = end - 1;
    let byte = plan[last];
    if word < 96 {
        if byte == word {
            return Some(last);
        }
        return None;
    }
    if word < 99 {
        let start = starts[last];
        return Some(start as usize);
    }
    if word < 101 {
        if byte <= n {
            return Some(last);
        }
        return None;
    }
    if byte < 80 {
        return None;
    }
    if byte < 88 {
        return Some(last);
    }
    None
}

// The letter that a pattern's word is; 6 for a sign.
pub fn slot(word: u8) -> usize
    ensures { result ≡ slot_of word }
{
    if word < 96 {
        return 6;
    }
    if word < 102 {
        return (word - 96) as usize;
    }
    6
}

// Matches a pattern's words, the last first, against the plan's, the last first: where each letter reaches, if all words fit.
pub fn match_pattern(n: u8, plan: &[u8], starts: &[u16], pattern: &[u8]) -> Option<Letters>
    requires { Ready n plan.now starts.now }
    ensures { MatchFound (match_words n plan.now pattern.now (length plan.now) no_places no_places) result }
{
    let mut letters = Letters {
        from: [0; 7],
        to: [0; 7],
    };
    let mut e = plan.len();
    for &word in pattern {
        let s = next_end(n, plan, starts, word, e)?;
        let k = slot(word);
        letters.from[k] = s as u16;
        letters.to[k] = e as u16;
        e = s;
    }
    Some(letters)
}

// Matches the left side of a law.
pub fn match_left(law: u8, n: u8, plan: &[u8], starts: &[u16]) -> Option<Letters>
    requires le_law { (1 ≤ law) × (law ≤ highest_law) }
    requires ready { Ready n plan.now starts.now }
    ensures { MatchFound (match_words n plan.now (back (law_at law).lhs) (length plan.now) no_places no_places) result }
{
    match_pattern(n, plan, starts, left_side(law))
}
