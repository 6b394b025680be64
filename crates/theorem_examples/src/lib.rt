// Worked examples, proved by computing over the definitions: the paper's in proofs/Oven.antt and proofs/Refused.antt,
// those of `ini` in proofs/Starts.antt.
#![tactic(auto)]
