// Plans as texts: the grammar, how a text is read and what is wrong with one; definitions in specs/, theorems in proofs/, no function.
#![tactic(auto)]

use plans::Binary;

// An open bracket: `(`, `T(`, `H0(` to `H7(` by the set's number, or `(s o ` whose second sum is being read.
#[derive(Clone, Copy)]
pub enum Bracket {
    Plain,
    OfPriority,
    OfSet(u8),
    Second(Binary),
}
