// Demand 3 of the paper as one statement about a whole list of proposals: specs/Demand.antt, proofs/Demand3.antt.
#![tactic(auto)]
