// What is promised of the compiled entries, whoever calls them in whatever order: definitions and theorems, no code.
#![tactic(auto)]
