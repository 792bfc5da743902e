// Demands 1 and 3: what holds of every call on any words, and over any sequence of calls. No code. What is said is in specs/, in the order of
// specs/Lib.antt, the statements themselves in specs/Demands.antt; the term of each is in proofs/Demands.antt.
#![tactic(auto)]
