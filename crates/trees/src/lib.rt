// Trees of plans, and when two are alike: definitions in specs/, theorems in proofs/, no function.
#![tactic(auto)]
