// Cleanup and then CrystalFold of one function: definitions and theorems alone, no code.
#![tactic(auto)]
