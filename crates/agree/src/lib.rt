// Each instruction of the code does what the machine a reader believes does: definitions and laws, no code.
#![tactic(auto)]
