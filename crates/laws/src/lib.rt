// What follows from the definitions of model, for every policy alike: the theorems stand in proofs/.
#![tactic(auto)]
