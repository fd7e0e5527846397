// The theory of the rules is in proofs/: no code runs here.
#![tactic(auto)]
