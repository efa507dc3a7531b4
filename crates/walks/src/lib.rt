// No code: the laws of a slice that is filled element by element (proofs/Fill.antt).
#![tactic(auto)]
