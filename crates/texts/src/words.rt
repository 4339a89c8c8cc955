// Words put behind each other into an array; past its end they are counted and not stored.
ghost use Rattle.std.specs.Prelude.{◌∷◌, [], ◌<◌};
ghost use Rattle.grammar.specs.States.{closed};
ghost use Rattle.grammar.specs.Reading.{byte_of};
ghost use Rattle.texts.specs.Readers.{Stored, SetSmall};

use grammar::Bracket;
use plans::{ENCAPSULATION, PRIORITY};

// Puts one word behind `words` others; how many there are then.
pub fn store(word: u8, out: &mut [u8], words: usize) -> usize
    requires { words < 18446744073709551615 }
    ensures { Stored out.old out.new words result (word ∷ []) }
{
    // By the index: through `get_mut` it is not proved what the array then holds.
    if words < out.len() {
        out[words] = word;
    }
    words + 1
}

// Puts the word that a bracket closes with behind `words` others: none for `(s)`; how many there are then. Inlined: each bracket closes with it.
#[inline(always)]
#[tactic(auto, unfolding(plans::specs::Word::unary_word))]
pub fn close(bracket: Bracket, out: &mut [u8], words: usize) -> usize
    requires { (words < 18446744073709551615) × SetSmall bracket }
    ensures { Stored out.old out.new words result (closed byte_of bracket []) }
{
    match bracket {
        Bracket::Plain => words,
        Bracket::OfPriority => store(PRIORITY, out, words),
        Bracket::OfSet(number) => store(ENCAPSULATION + number, out, words),
        Bracket::Second(sign) => store(u8::from(sign), out, words),
    }
}
