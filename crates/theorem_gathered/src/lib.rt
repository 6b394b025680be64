// No code: a statement about what the merger gathers, and its proof.
#![tactic(auto)]
