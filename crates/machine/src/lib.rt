// How a function runs: definitions and theorems alone, no code.
#![tactic(auto)]
