// Demands 2 and 3, about the unfolding and the checker as wholes: definitions in specs/, theorems in proofs/, no function.
#![tactic(auto)]
