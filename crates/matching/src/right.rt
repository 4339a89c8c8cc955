// The right sides of the laws, written out.
ghost use Rattle.std.specs.Prelude.{◌≡◌, ◌+◌, ◌≤◌, ◌<◌, length};
ghost use Rattle.areas.specs.Area.{Written};
ghost use Rattle.laws.specs.Laws.{law_at, highest_law};
ghost use Rattle.laws.specs.Postfix.{forth};
ghost use Rattle.matching.specs.Right.{spelled_one, spelled, Reaches, width, sized};

use crate::Letters;

// The right sides of the laws, law 1 first, each from its first word to its last. Letters x, y, z, a, b are 96 to 100, ∂ by the left side's set is 101, and
// the table entry of a and b is 102.
pub const RIGHT: [&[u8]; laws::HIGHEST_LAW as usize] = [
    &[97, 96, 64], // 1: y + x
    &[96, 97, 64, 98, 64], // 2: (x + y) + z
    &[96, 97, 98, 64, 64], // 3: x + (y + z)
    &[96], // 4: x
    &[96, 98, 65, 97, 98, 65, 64], // 5: x·z + y·z
    &[96, 97, 98, 65, 65], // 6: x·(y·z)
    &[96], // 7: x
    &[96], // 8: x
    &[0], // 9: δ
    &[102], // 10: the table entry
    &[96, 97, 67, 97, 96, 67, 64, 96, 97, 68, 64], // 11: (x ⌊ y + y ⌊ x) + x | y
    &[99, 96, 65], // 12: a·x
    &[99, 96, 97, 66, 65], // 13: a·(x ‖ y)
    &[96, 98, 67, 97, 98, 67, 64], // 14: x ⌊ z + y ⌊ z
    &[99, 100, 68, 96, 65], // 15: (a | b)·x
    &[99, 100, 68, 96, 65], // 16: (a | b)·x
    &[99, 100, 68, 96, 97, 66, 65], // 17: (a | b)·(x ‖ y)
    &[96, 98, 68, 97, 98, 68, 64], // 18: x | z + y | z
    &[96, 97, 68, 96, 98, 68, 64], // 19: x | y + x | z
    &[99], // 20: a
    &[0], // 21: δ
    &[96, 101, 97, 101, 64], // 22: ∂(x) + ∂(y)
    &[96, 101, 97, 101, 65], // 23: ∂(x)·∂(y)
    &[99], // 24: a
    &[0], // 25: δ
    &[96, 97, 69], // 26: x ◁ y
    &[96, 97, 69, 98, 69], // 27: (x ◁ y) ◁ z
    &[96, 98, 69, 97, 65], // 28: (x ◁ z)·y
    &[96, 98, 69, 97, 98, 69, 64], // 29: x ◁ z + y ◁ z
    &[99], // 30: a
    &[96, 70, 97, 70, 65], // 31: θ(x)·θ(y)
    &[96, 70, 97, 69, 97, 70, 96, 69, 64], // 32: θ(x) ◁ y + θ(y) ◁ x
];

// The right side of a law.
pub fn right_side(law: u8) -> &'static [u8]
    requires { (1 ≤ law) × (law ≤ highest_law) }
    ensures { result.now ≡ forth (law_at law).rhs }
{
    RIGHT[law as usize - 1]
}

// How many words one word of a right side comes to.
pub fn word_len(word: u8, letters: &Letters) -> usize
    ensures { (result ≡ width letters.now.from letters.now.to word) × (result < 65536) }
{
    if word < 96 {
        return 1;
    }
    if word < 102 {
        let k = (word - 96) as usize;
        return letters.to[k].saturating_sub(letters.from[k]) as usize;
    }
    1
}

// How many words the words of a right side come to.
pub fn words_len(words: &[u8], letters: &Letters) -> usize
    requires { length words.now ≤ 136 }
    ensures { result ≡ sized letters.now.from letters.now.to words.now }
{
    let mut total = 0;
    for &word in words {
        total += word_len(word, letters);
    }
    total
}

// Writes what one word of a right side comes to; the place after it.
pub fn put_one(
    word: u8,
    entry: u8,
    plan: &[u8],
    letters: &Letters,
    dst: &mut [u8],
    at: usize,
) -> usize
    requires reaches { Reaches plan.now letters.now.from letters.now.to }
    requires word_in_bounds { at + length (spelled_one entry plan.now letters.now.from letters.now.to word) ≤ length dst.old }
    ensures { Written dst.old dst.new at
        (spelled_one entry plan.now letters.now.from letters.now.to word) result }
{
    if word < 96 {
        return areas::put_word(word, dst, at);
    }
    if word < 102 {
        let k = (word - 96) as usize;
        let a = letters.from[k] as usize;
        let b = letters.to[k] as usize;
        return areas::copy_in(&plan[a..b], dst, at);
    }
    areas::put_word(entry, dst, at)
}

// Writes out the words of a right side; the place after them.
pub fn put_words(
    words: &[u8],
    entry: u8,
    plan: &[u8],
    letters: &Letters,
    dst: &mut [u8],
    at: usize,
) -> usize
    requires reaches { Reaches plan.now letters.now.from letters.now.to }
    requires words_in_bounds { at + length (spelled entry plan.now letters.now.from letters.now.to words.now) ≤ length dst.old }
    ensures { Written dst.old dst.new at
        (spelled entry plan.now letters.now.from letters.now.to words.now) result }
{
    let mut e = at;
    for &word in words {
        e = put_one(word, entry, plan, letters, &mut *dst, e);
    }
    e
}
