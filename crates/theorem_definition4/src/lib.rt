// Definition 4 and Tables 2 and 3 of source document 003 as relations, its theorems 5 to 8, and the law that the
// merger gives Definition 4's automaton: specs/, proofs/.
#![tactic(auto)]
