// The characters of texts, and what stands at a place of one; nothing stands past its end.
ghost use Rattle.std.specs.Prelude.{◌≡◌, ◌≤◌, drop};
ghost use Rattle.grammar.specs.States.{between_of};
ghost use Rattle.texts.specs.Readers.{next_is, next_numeral, next_between, numeral_found, sign_found};

use plans::Binary;

// Whether a character stands at a place.
pub fn next_is(text: &[u8], at: usize, character: u8) -> bool
    ensures { result ≡ next_is character (drop at text.now) }
{
    text.get(at) == Some(&character)
}

// The digit at a place, where it is at most `most`.
pub fn numeral_at(text: &[u8], at: usize, most: u8) -> Option<u8>
    requires { most ≤ 9 }
    ensures { result ≡ numeral_found (next_numeral most (drop at text.now)) }
{
    let digit = text.get(at)?.checked_sub(b'0')?;
    (digit <= most).then_some(digit)
}

// The sign between two sums that a character is.
fn sign_of(character: u8) -> Option<Binary>
    ensures { result ≡ sign_found (between_of character) }
{
    match character {
        b'#' => Some(Binary::Merge),
        b'[' => Some(Binary::LeftMerge),
        b'|' => Some(Binary::CommunicationMerge),
        b'<' => Some(Binary::Unless),
        _ => None,
    }
}

// The sign between two sums at a place.
pub fn sign_at(text: &[u8], at: usize) -> Option<Binary>
    ensures { result ≡ sign_found (next_between (drop at text.now)) }
{
    sign_of(*text.get(at)?)
}
