// Rule 5: totals of chains, brought up to date along links, and what they find too long removed.
#![tactic(auto)]

pub mod cuts;
pub mod links;
pub mod totals;
