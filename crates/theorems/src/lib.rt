// The theorems of demand 3 stand in specs/ and their proofs in proofs/.
#![tactic(auto)]
