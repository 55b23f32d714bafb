// The mathematics of the planner: definitions in specs/, theorems in proofs/. There is no code here.
#![tactic(auto)]
