// The parts of a sheet: measures, items and precedences. What each is, when it is valid, and how it is read from and written to bytes.
#![tactic(auto)]

ghost use Rattle.std.specs.Prelude.{◌≡◌, ◌≤◌};
ghost use Rattle.formats.specs.Fields.{is_set};

pub mod read;
pub mod valid;
pub mod write;

// "Make 4,095 the greatest measure of halls and pieces": `Instance` has it as its own.
pub const MAX_MEASURE: u16 = 4095;

// The measures of the container or of an item.
#[derive(Clone, Copy, PartialEq, Eq)]
pub struct Size {
    pub width: u16,
    pub depth: u16,
    pub shifts: u16,
}

// A piece. `may_turn`: its width and depth may be exchanged.
#[derive(Clone, Copy, PartialEq, Eq)]
pub struct Item {
    pub size: Size,
    pub may_turn: bool,
}

// An order u, v: the predecessor is lifted at least `lag` shifts before the successor is set.
#[derive(Clone, Copy, PartialEq, Eq)]
pub struct Precedence {
    pub predecessor: u8,
    pub successor: u8,
    pub lag: u8,
}

// Whether the bit of that weight is set in a map byte.
pub fn bit_is_set(map: u8, weight: u8) -> bool
    requires { 1 ≤ weight }
    ensures { result ≡ is_set map weight }
{
    map / weight % 2 == 1
}
