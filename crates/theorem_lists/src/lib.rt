// What the lists behind edges say (request (f)), and that the sheet is the same without them: specs/Lists.antt,
// proofs/Exact.antt and proofs/Dropped.antt.
#![tactic(auto)]
