// The machine a reader believes, from the loop of eval.rs: definitions in specs/, and in proofs/ what is promised of them. It has no code;
// the code that equals it is in instruction, calls and eval.
#![tactic(auto)]
