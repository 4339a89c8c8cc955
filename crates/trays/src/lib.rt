// The trial trays of document 01: definitions in specs/, theorems in proofs/, no function.
#![tactic(auto)]
