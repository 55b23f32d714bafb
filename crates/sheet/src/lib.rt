// The sheet's bytes: no code, definitions and theorems alone.
#![tactic(auto)]
