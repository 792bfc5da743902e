// The theory of runs: no code. Its order is told by specs/Lib.antt (what is said) and proofs/Lib.antt (why it holds).
#![tactic(auto)]
