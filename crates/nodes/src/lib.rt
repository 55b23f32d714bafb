// Nodes of the search tree: where a node branches and what a branch leaves, snapshots, and the packing of a packed one.
#![tactic(auto)]

pub mod branching;
pub mod snapshots;
pub mod starts;
