// The laws at the root of a term that a graph holds, an operator's word and the entries of its operands. What the operands are tells the
// lowest law of 5 to 32 that fits, so that no law is tried in vain.
ghost use Rattle.std.specs.Prelude.{◌≡◌, ◌≤◌};
ghost use Rattle.graph.specs.Graph.{graph, Nodes};
ghost use Rattle.redexes.specs.Slots.{Entry};
ghost use Rattle.redexes.specs.Redexes.{operand_of, on_plans, on_actions, on_set, choice_redex, sequence_redex};
ghost use Rattle.redexes.specs.Redexes.{left_merge_redex, communication_redex};
ghost use Rattle.redexes.specs.Redexes.{unless_actions, unless_redex, priority_redex, encapsulation_redex};

use super::Redex;
use graph::FIRST_NODE;

// An operand: an action; a sum or a product, with the entries under it; or a term of another sign.
#[derive(Clone, Copy)]
pub enum Operand {
    Action(u8),
    Sum(u16, u16),
    Product(u16, u16),
    Other,
}

// Looks at an operand.
#[tactic(auto, unfolding(crate::specs::Redexes::operand_of))]
pub fn operand_at(own: &[u8], first: &[u16], second: &[u16], v: u16) -> Operand
    requires { Nodes (graph own.now first.now second.now) × Entry (graph own.now first.now second.now) v }
    ensures { result ≡ operand_of (graph own.now first.now second.now) v }
{
    if v < FIRST_NODE {
        return Operand::Action(v as u8);
    }
    let k = v as usize;
    match own[k] {
        64 => Operand::Sum(first[k], second[k]),
        65 => Operand::Product(first[k], second[k]),
        _ => Operand::Other,
    }
}

// A law whose letters are plans alone.
pub fn on_plans(law: u8, x: u16, y: u16, z: u16) -> Redex
    ensures { result ≡ on_plans law x y z }
{
    Redex {
        law,
        x,
        y,
        z,
        a: 0,
        b: 0,
        set: 80,
    }
}

// A law whose letters are actions a and b, and plans x and y.
fn on_actions(law: u8, a: u8, b: u8, x: u16, y: u16) -> Redex
    ensures { result ≡ on_actions law a b x y }
{
    Redex {
        law,
        x,
        y,
        z: 0,
        a,
        b,
        set: 80,
    }
}

// A law of encapsulation.
fn on_set(law: u8, set: u8, a: u8, x: u16, y: u16) -> Redex
    ensures { result ≡ on_set law set a x y }
{
    Redex {
        law,
        x,
        y,
        z: 0,
        a,
        b: 0,
        set: set as u16,
    }
}

// x + y, laws 7 and 8.
#[tactic(auto, unfolding(crate::specs::Redexes::choice_redex))]
pub fn choice_redex(a: u16, b: u16) -> Option<Redex>
    ensures { result ≡ choice_redex a b }
{
    if b == 0 {
        return Some(on_plans(7, a, 0, 0));
    }
    if a == 0 {
        return Some(on_plans(8, b, 0, 0));
    }
    None
}

// x·y, laws 5, 6 and 9.
#[tactic(auto, unfolding(crate::specs::Redexes::sequence_redex))]
pub fn sequence_redex(b: u16, p: Operand) -> Option<Redex>
    ensures { result ≡ sequence_redex b p }
{
    match p {
        Operand::Sum(x, y) => Some(on_plans(5, x, y, b)),
        Operand::Product(x, y) => Some(on_plans(6, x, y, b)),
        Operand::Action(0) => Some(on_plans(9, b, 0, 0)),
        _ => None,
    }
}

// x ⌊ y, laws 12 to 14.
#[tactic(auto, unfolding(crate::specs::Redexes::left_merge_redex))]
pub fn left_merge_redex(b: u16, p: Operand) -> Option<Redex>
    ensures { result ≡ left_merge_redex b p }
{
    match p {
        Operand::Action(a) => Some(on_actions(12, a, 0, b, 0)),
        Operand::Product(a, x) if a < FIRST_NODE => Some(on_actions(13, a as u8, 0, x, b)),
        Operand::Sum(x, y) => Some(on_plans(14, x, y, b)),
        _ => None,
    }
}

// x | y, laws 10 and 15 to 19.
#[tactic(auto, unfolding(crate::specs::Redexes::communication_redex))]
pub fn communication_redex(a: u16, b: u16, p: Operand, q: Operand) -> Option<Redex>
    ensures { result ≡ communication_redex a b p q }
{
    match p {
        Operand::Action(i) => match q {
            Operand::Action(j) => Some(on_actions(10, i, j, 0, 0)),
            Operand::Product(j, y) if j < FIRST_NODE => Some(on_actions(16, i, j as u8, y, 0)),
            Operand::Sum(y, z) => Some(on_plans(19, a, y, z)),
            _ => None,
        },
        Operand::Product(i, x) if i < FIRST_NODE => match q {
            Operand::Action(j) => Some(on_actions(15, i as u8, j, x, 0)),
            Operand::Product(j, y) if j < FIRST_NODE => {
                Some(on_actions(17, i as u8, j as u8, x, y))
            }
            Operand::Sum(y, z) => Some(on_plans(19, a, y, z)),
            _ => None,
        },
        Operand::Sum(x, y) => Some(on_plans(18, x, y, b)),
        _ => match q {
            Operand::Sum(y, z) => Some(on_plans(19, a, y, z)),
            _ => None,
        },
    }
}

// a ◁ b of two actions, laws 24 and 25.
#[tactic(auto, unfolding(crate::specs::Redexes::unless_actions))]
fn unless_actions(tables: &[u8], a: u8, b: u8) -> Redex
    ensures { result ≡ unless_actions tables.now a b }
{
    if tables::is_below(tables, a, b) {
        return on_actions(25, a, b, 0, 0);
    }
    on_actions(24, a, b, 0, 0)
}

// x ◁ y, laws 24 to 29.
#[tactic(auto, unfolding(crate::specs::Redexes::unless_redex))]
pub fn unless_redex(tables: &[u8], a: u16, b: u16, p: Operand, q: Operand) -> Option<Redex>
    ensures { result ≡ unless_redex tables.now a b p q }
{
    match q {
        Operand::Product(y, z) => Some(on_plans(26, a, y, z)),
        Operand::Sum(y, z) => Some(on_plans(27, a, y, z)),
        Operand::Action(j) => match p {
            Operand::Product(x, y) => Some(on_plans(28, x, y, b)),
            Operand::Sum(x, y) => Some(on_plans(29, x, y, b)),
            Operand::Action(i) => Some(unless_actions(tables, i, j)),
            Operand::Other => None,
        },
        Operand::Other => match p {
            Operand::Product(x, y) => Some(on_plans(28, x, y, b)),
            Operand::Sum(x, y) => Some(on_plans(29, x, y, b)),
            _ => None,
        },
    }
}

// θ(x), laws 30 to 32.
#[tactic(auto, unfolding(crate::specs::Redexes::priority_redex))]
pub fn priority_redex(p: Operand) -> Option<Redex>
    ensures { result ≡ priority_redex p }
{
    match p {
        Operand::Action(a) => Some(on_actions(30, a, 0, 0, 0)),
        Operand::Product(x, y) => Some(on_plans(31, x, y, 0)),
        Operand::Sum(x, y) => Some(on_plans(32, x, y, 0)),
        Operand::Other => None,
    }
}

// ∂(x), laws 20 to 23.
#[tactic(auto, unfolding(crate::specs::Redexes::encapsulation_redex))]
pub fn encapsulation_redex(tables: &[u8], word: u8, p: Operand) -> Option<Redex>
    requires { 80 ≤ word }
    ensures { result ≡ encapsulation_redex tables.now word p }
{
    match p {
        Operand::Action(a) => {
            if tables::is_blocked(tables, word - 80, a) {
                return Some(on_set(21, word, a, 0, 0));
            }
            Some(on_set(20, word, a, 0, 0))
        }
        Operand::Sum(x, y) => Some(on_set(22, word, 0, x, y)),
        Operand::Product(x, y) => Some(on_set(23, word, 0, x, y)),
        Operand::Other => None,
    }
}
