// The whole stream: the rule of all its bytes, however they are cut, and that the stream is a history. No code. What is said is in specs/,
// in the order of specs/Lib.antt; the law of pieces is in proofs/Pieces.antt, demand 3 of the stream in proofs/Program.antt.
#![tactic(auto)]
