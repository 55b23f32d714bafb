// Paths of branches: a checkpoint's own, and what the domains at the end of one show.
#![tactic(auto)]

pub mod outlook;
pub mod path;
