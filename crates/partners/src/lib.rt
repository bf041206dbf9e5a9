// Private tuples disturb nobody: no code, theorems alone.
#![tactic(auto)]
