// The format of the sheet text. Its definitions stand in specs/, their laws in proofs/.
#![tactic(auto)]
