// A receiver keeps its verdict whatever the others send: definitions and the theorem. No code stands here.
#![tactic(auto)]
