// The rules are in specs/, and examples computed from them in proofs/: no code runs here.
#![tactic(auto)]
