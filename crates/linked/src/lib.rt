// The C functions that a host links are promise's calls, so what is promised of these holds of them: definitions and theorems, no code.
#![tactic(auto)]
