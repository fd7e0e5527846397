// Examples computed from the rules are in proofs/: no code runs here.
#![tactic(auto)]
