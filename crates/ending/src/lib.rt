// Every run of the unfolding's steps, without limits, comes to a basic plan: definitions in specs/, theorems in proofs/, no function.
#![tactic(auto)]
