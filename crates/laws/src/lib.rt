// The thirty-two laws: definitions in specs/, theorems in proofs/, no function.
#![tactic(auto)]

// The number of the last law.
pub const HIGHEST_LAW: u8 = 32;
