// No code: the proved sheet is proofs/Sheet.antt.
#![tactic(auto)]
