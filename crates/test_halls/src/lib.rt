// The small halls of document 01: a table and its theorem (specs/Halls, proofs/Halls). There is no code.
#![tactic(auto)]
