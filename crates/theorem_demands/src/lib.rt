// Demands 1 and 2 of the paper, each as one statement: specs/Calls.antt and specs/Exactly.antt. They are proved in
// proofs/Demand1.antt and proofs/Demand2.antt.
#![tactic(auto)]
