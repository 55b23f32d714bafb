// The libraries' names that the crates use, in one module of specs/. There is no code here.
#![tactic(auto)]
