// Rules 1 to 4 by events: what each removes where a pair has changed, by sets of items read from the rows.
#![tactic(auto)]

pub mod overlaps;
pub mod paths;
pub mod rings;
