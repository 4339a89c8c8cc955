// Plans: how their words are read and judged, which plans are basic, and how many paths of a basic plan finish or get stuck.
#![tactic(auto)]

ghost use Rattle.std.specs.Prelude.{◌≡◌, ◌≤◌, ◌<◌, length};
ghost use Rattle.refusals.specs.Refusal.{judged};
ghost use Rattle.plans.specs.Word.{binary_word, operands_of, takes_two?, word_of};
ghost use Rattle.plans.specs.Judging.{plan_refusal, words_refusal};
ghost use Rattle.plans.specs.Basic.{basic_words?};
ghost use Rattle.plans.specs.Orders.{counts_of};
ghost use Rattle.plans.specs.Occurrences.{occurrences};
ghost use Rattle.plans.specs.Start.{start_next, Operands};
ghost use Rattle.areas.specs.Area.{most_words};

use areas::MOST_WORDS;
use refusals::{Place, Reason, Refusal};
use scan::Kind;
use tables::{MOST_ACTIONS, actions_of, judge_tables};

mod scan;
mod turns;

// The word of dead stop, δ.
pub const DELTA: u8 = 0;

// The words of the operators of two operands.
pub const CHOICE: u8 = Binary::Choice as u8;

pub const SEQUENCE: u8 = Binary::Sequence as u8;

pub const MERGE: u8 = Binary::Merge as u8;

pub const LEFT_MERGE: u8 = Binary::LeftMerge as u8;

pub const COMMUNICATION_MERGE: u8 = Binary::CommunicationMerge as u8;

pub const UNLESS: u8 = Binary::Unless as u8;

// The words of the operators of one operand: of priority, and of encapsulation by set 0 and by set 7.
pub const PRIORITY: u8 = 70;

pub const ENCAPSULATION: u8 = 80;

pub const LAST_ENCAPSULATION: u8 = 87;

// The operators of two operands, by their words: choice +, sequence ·, merge ‖, left merge ⌊, communication merge |, unless ◁.
#[derive(Clone, Copy, Debug, PartialEq, Eq)]
pub enum Binary {
    Choice = 64,
    Sequence,
    Merge,
    LeftMerge,
    CommunicationMerge,
    Unless,
}

impl From<Binary> for u8 {
    ghost from_gives = { λ operator word. word ≡ binary_word operator };

    fn from(operator: Binary) -> u8 {
        operator as u8
    }
}

// The operators of one operand: priority θ, and encapsulation ∂ by a set's number.
#[derive(Clone, Copy, Debug, PartialEq, Eq)]
pub enum Unary {
    Priority,
    Encapsulation(u8),
}

// What a byte is among the words of plans: an action, an operator of one operand or of two, or no word.
// (No word is one of four kinds of byte, and no Option: each reader tells the four apart by one match.)
#[derive(Clone, Copy, Debug, PartialEq, Eq)]
pub enum Word {
    Action(u8),
    One(Unary),
    Two(Binary),
    NoWord,
}

// How many paths of a basic plan are orders, which finish, and how many are stuck, which lead into a dead stop.
#[derive(Clone, Copy, Debug, PartialEq, Eq)]
pub struct Counts {
    pub orders: usize,
    pub stuck: usize,
}

// How many operands a byte takes; 3, as the documents have it, for a byte that is no word under any count of actions.
#[tactic(auto, using(std::proofs::lemmas::Bool::Decides::nat_tests), unfolding(crate::specs::Word::operands_of))]
pub fn operands(byte: u8) -> u8
    ensures whole { result ≡ operands_of byte }
{
    match byte {
        0..=MOST_ACTIONS => 0,
        CHOICE..=UNLESS => 2,
        PRIORITY | ENCAPSULATION..=LAST_ENCAPSULATION => 1,
        _ => 3,
    }
}

// Whether a byte is a sign of two operands.
pub fn takes_two(word: u8) -> bool
    ensures whole { result ≡ takes_two? word }
{
    operands(word) == 2
}

// What a byte is under n actions.
#[tactic(auto, using(std::proofs::lemmas::Bool::Decides::nat_tests), unfolding(crate::specs::Word::word_of, crate::specs::Word::sign_of))]
pub fn classify(n: u8, byte: u8) -> Word
    requires { n ≤ 31 }
    ensures whole { result ≡ word_of n byte }
{
    match byte {
        _ if byte <= n => Word::Action(byte),
        CHOICE => Word::Two(Binary::Choice),
        SEQUENCE => Word::Two(Binary::Sequence),
        MERGE => Word::Two(Binary::Merge),
        LEFT_MERGE => Word::Two(Binary::LeftMerge),
        COMMUNICATION_MERGE => Word::Two(Binary::CommunicationMerge),
        UNLESS => Word::Two(Binary::Unless),
        PRIORITY => Word::One(Unary::Priority),
        ENCAPSULATION..=LAST_ENCAPSULATION => {
            Word::One(Unary::Encapsulation(byte - ENCAPSULATION))
        }
        _ => Word::NoWord,
    }
}

// Judges a plan's words under n actions: accepted, or 11 to 14 of document 01.
pub fn judge_words(n: u8, plan: &[u8]) -> Result<(), Refusal>
    requires { n ≤ 31 }
    ensures whole { result ≡ judged (words_refusal n plan.now) }
{
    if plan.is_empty() || MOST_WORDS < plan.len() {
        return Err(Refusal::from(Reason::PlanLength));
    }
    let mut depth = 0;
    for (i, &byte) in plan.iter().enumerate() {
        depth = turns::take_word(n, byte, depth).map_err(|reason| Refusal::at(
            reason,
            Place::Byte(i),
        ))?;
    }
    if depth == 1 {
        Ok(())
    } else {
        Err(Refusal::from(Reason::NotOnePlan))
    }
}

// Judges the tables, 1 to 8 of document 01, then a plan under them, 11 to 14.
pub fn judge_plan(tables: &[u8], plan: &[u8]) -> Result<(), Refusal>
    ensures whole { result ≡ judged (plan_refusal tables.now plan.now) }
{
    judge_tables(tables)?;
    judge_words(actions_of(tables), plan)
}

// Whether a plan's words are a basic plan under n actions: one kind for each subplan that waits.
// (There is no heap: an array and how much of it is used stand for the stack of kinds.)
pub fn basic_words(n: u8, plan: &[u8]) -> bool
    requires { (n ≤ 31) × (length plan.now ≤ most_words) }
    ensures whole { result ≡ basic_words? n plan.now }
{
    let mut kinds = [Kind::NotBasic; MOST_WORDS];
    let mut depth = 0;
    for &byte in plan {
        match classify(n, byte) {
            Word::Action(action) => {
                kinds[depth] = scan::action_kind(action);
                depth += 1;
            }
            Word::One(_) => {
                if depth < 1 {
                    return false;
                }
                kinds[depth - 1] = Kind::NotBasic;
            }
            Word::Two(operator) => {
                if depth < 2 {
                    return false;
                }
                depth -= 1;
                kinds[depth - 1] = scan::join_kinds(operator, kinds[depth - 1], kinds[depth]);
            }
            Word::NoWord => return false,
        }
    }
    depth == 1 && kinds[0].is_basic()
}

// How often a word stands in a plan.
fn count_word(plan: &[u8], word: u8) -> usize
    ensures { result ≡ occurrences word plan.now }
{
    // Each byte adds 0 or 1: with `filter` and `count` it would be a jump at each, which takes longer where they come without order.
    let mut count = 0;
    for &byte in plan {
        count += usize::from(byte == word);
    }
    count
}

// How many paths of a plan are orders, and how many are stuck, 0 of both where it is not basic. A basic plan has one path more than signs of choice, and
// as many lead into a dead stop as it has words 0.
pub fn count_orders(n: u8, plan: &[u8]) -> Counts
    requires { (n ≤ 31) × (length plan.now ≤ most_words) }
    ensures whole { result ≡ counts_of n plan.now }
{
    if !basic_words(n, plan) {
        return Counts {
            orders: 0,
            stuck: 0,
        };
    }
    let paths = 1 + count_word(plan, CHOICE);
    let stuck = count_word(plan, DELTA);
    Counts {
        orders: paths - stuck,
        stuck,
    }
}

// Where the subplan starts whose last word is the next one. (A byte that is no word cannot come; it would start at itself.)
#[tactic(auto, unfolding(crate::specs::Start::start_next))]
pub fn start_of_next(n: u8, word: u8, starts: &[u16], read: usize) -> u16
    requires n_bound { (n ≤ 31) × (read < most_words) × (read ≤ length starts.now) }
    requires operands { Operands (word_of n word) starts.now read }
    ensures { result ≡ start_next (word_of n word) starts.now read }
{
    match classify(n, word) {
        Word::Action(_) | Word::NoWord => read as u16,
        Word::One(_) => starts[read - 1],
        Word::Two(_) => {
            let right = starts[read - 1] as usize;
            starts[right - 1]
        }
    }
}
