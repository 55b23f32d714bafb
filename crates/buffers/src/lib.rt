// Packings, steps and checkpoints in the byte buffers of a C program.
#![tactic(auto)]

pub mod checkpoints;
pub mod plans;
pub mod words;

// A note: state, length, branches, and the choice: "275 in all".
pub const NOTE_BYTES: usize = 275;

// "4 bytes of steps"
pub const STEP_BYTES: usize = 4;

// A piece of a plan: x, y, t, "2 bytes each", and its mark, "a seventh byte".
pub const PIECE_BYTES: usize = 7;

// The length of an earliest finish: a word.
pub const FINISH_BYTES: usize = 2;
