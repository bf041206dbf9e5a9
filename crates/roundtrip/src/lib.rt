// What is written is read back: no code, theorems alone.
#![tactic(auto)]
