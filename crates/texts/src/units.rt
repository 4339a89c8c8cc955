// How a unit begins, and what stands behind the sum in a bracket.
ghost use Rattle.std.specs.Prelude.{◌≤◌, ◌≡◌, drop};
ghost use Rattle.std.proofs.Math.Option.{some};
ghost use Rattle.refusals.specs.declared.Place.TheVariants.{Byte};
ghost use Rattle.refusals.specs.Refusal.{number_of};
ghost use Rattle.texts.specs.Readers.{next_numeral, no_text, expected, opened, plain?, BegunRight, BehindRight};

use super::characters::{next_is, numeral_at, sign_at};
use grammar::Bracket;
use plans::Binary;
use refusals::{Place, Reason, Refusal};

// "an opening bracket that goes deeper than 200": how many brackets may be open.
pub const DEEPEST: usize = 200;

// The digits of an action and of a set are at most these.
const DIGIT: u8 = 9;

const SET: u8 = 7;

// What is wrong with a text, and at which place.
#[derive(Clone, Copy, Debug, PartialEq, Eq)]
pub struct Fault {
    pub reason: Reason,
    pub place: usize,
}

impl Fault {
    // "A character that can't go on, a text that ends too early … or an action above n".
    pub fn no_text(place: usize) -> Fault
        ensures { result ≡ no_text place }
    {
        Fault {
            reason: Reason::NoText,
            place,
        }
    }
}

impl From<Fault> for Refusal {
    ghost from_gives = { λ fault refusal. refusal ≡ record { number = number_of fault.reason; place = Byte fault.place } };

    fn from(fault: Fault) -> Refusal {
        Refusal::at(fault.reason, Place::Byte(fault.place))
    }
}

// How a unit begins: with an action, which is all of it, or with a bracket. `next` is the place behind.
#[derive(Clone, Copy)]
pub enum Begun {
    Action { action: u8, next: usize },
    Opened { bracket: Bracket, next: usize },
}

// What stands behind the first sum in a bracket: `)`, or a sign with its blanks and then another sum. (No Option: a bracket that closes is no absence.)
#[derive(Clone, Copy)]
pub enum Behind {
    Closed,
    Sign(Binary),
}

// Demands a character at a place.
pub fn expect(text: &[u8], at: usize, character: u8) -> Result<(), Fault>
    ensures { result ≡ expected character at text.now }
{
    if next_is(text, at, character) {
        Ok(())
    } else {
        Err(Fault::no_text(at))
    }
}

// Reads the action that begins with a digit. Digits are read as long as the number is at most n, so that it stays small.
fn read_action(n: u8, text: &[u8], at: usize, depth: usize, digit: u8) -> Result<Begun, Fault>
    requires { (depth ≤ 200) × (next_numeral 9 (drop at text.now) ≡ some digit) }
    ensures { BegunRight n depth text.now at result }
{
    if n < digit {
        return Err(Fault::no_text(at));
    }
    let mut action = digit;
    let mut here = at + 1;
    while let Some(next) = numeral_at(text, here, DIGIT) {
        if action == 0 {
            return Err(Fault::no_text(here));
        }
        let value = 10 * (action as usize) + (next as usize);
        if (n as usize) < value {
            return Err(Fault::no_text(at));
        }
        action = value as u8;
        here += 1;
    }
    Ok(Begun::Action { action, next: here })
}

// Opens a bracket whose `(` is to stand at a place, where `depth` brackets are open.
fn open(text: &[u8], at: usize, depth: usize, bracket: Bracket) -> Result<Begun, Fault>
    ensures { result ≡ opened text.now at depth bracket }
{
    expect(text, at, b'(')?;
    if depth < DEEPEST {
        Ok(Begun::Opened {
            bracket,
            next: at + 1,
        })
    } else {
        Err(Fault {
            reason: Reason::TooDeep,
            place: at,
        })
    }
}

// How the unit at a place begins, where `depth` brackets are open.
pub fn begin(n: u8, text: &[u8], at: usize, depth: usize) -> Result<Begun, Fault>
    requires { depth ≤ 200 }
    ensures { BegunRight n depth text.now at result }
{
    if let Some(digit) = numeral_at(text, at, DIGIT) {
        return read_action(n, text, at, depth, digit);
    }
    if next_is(text, at, b'T') {
        return open(text, at + 1, depth, Bracket::OfPriority);
    }
    if next_is(text, at, b'H') {
        let Some(set) = numeral_at(text, at + 1, SET) else {
            return Err(Fault::no_text(at + 1));
        };
        return open(text, at + 2, depth, Bracket::OfSet(set));
    }
    open(text, at, depth, Bracket::Plain)
}

// Whether a sign may follow the first sum in a bracket.
fn is_plain(bracket: Bracket) -> bool
    ensures { result ≡ plain? bracket }
{
    matches!(bracket, Bracket::Plain)
}

// What stands behind the sum that a bracket begins with.
pub fn after_sum(text: &[u8], at: usize, bracket: Bracket) -> Result<Behind, Fault>
    ensures { BehindRight text.now at bracket result }
{
    if next_is(text, at, b')') {
        return Ok(Behind::Closed);
    }
    if !is_plain(bracket) {
        return Err(Fault::no_text(at));
    }
    expect(text, at, b' ')?;
    let Some(sign) = sign_at(text, at + 1) else {
        return Err(Fault::no_text(at + 1));
    };
    expect(text, at + 2, b' ')?;
    Ok(Behind::Sign(sign))
}
