// What a works relies on: the three demands, each as one theorem (specs/ for the statements, proofs/ for the theorems). There is no code.
#![tactic(auto)]
