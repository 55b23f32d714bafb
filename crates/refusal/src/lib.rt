// Why an input is refused: one case for each number of document 01's table of refusals, with its place.
#![tactic(auto)]

ghost use Rattle.std.specs.Prelude.{◌≡◌};
ghost use Rattle.refusal.specs.Numbers.{number_of, place_of};

#[derive(Clone, Copy, PartialEq, Eq)]
pub enum Refusal {
    // 1: the bytes end before a byte that is due
    EndsEarly(usize),
    // 2: a bit of a map byte has no meaning
    UnknownBit(usize),
    // 3: a field is written with a value that is not above what leaving it out means
    WrittenDefault(usize),
    // 4: a count of 0 or above its limit
    BadCount(usize),
    // 5: an item that is not there, or a precedence of an item with itself
    BadItem(usize),
    // 6: a precedence that is not above the one before
    NotRising(usize),
    // 7: bytes after the last field
    TrailingBytes(usize),
    // 8: a lent buffer of the wrong length, or no such axis
    BadArgument,
    // 9: a value that is no instance
    InvalidInstance,
    // 10: a checkpoint that does not follow its instance
    NotFollowing,
    // 11: a lag field in which no lag is above 0
    NoLag(usize),
    // 12: a written measure above the greatest
    TooLarge(usize),
    // 13: a mark of a packing above 1, or 1 on an item that may not be turned
    BadMark,
}

impl Refusal {
    pub fn number(self) -> u8
        ensures { result ≡ number_of self }
    {
        match self {
            Refusal::EndsEarly(_) => 1,
            Refusal::UnknownBit(_) => 2,
            Refusal::WrittenDefault(_) => 3,
            Refusal::BadCount(_) => 4,
            Refusal::BadItem(_) => 5,
            Refusal::NotRising(_) => 6,
            Refusal::TrailingBytes(_) => 7,
            Refusal::BadArgument => 8,
            Refusal::InvalidInstance => 9,
            Refusal::NotFollowing => 10,
            Refusal::NoLag(_) => 11,
            Refusal::TooLarge(_) => 12,
            Refusal::BadMark => 13,
        }
    }

    pub fn place(self) -> usize
        ensures { result ≡ place_of self }
    {
        match self {
            Refusal::EndsEarly(place)
            | Refusal::UnknownBit(place)
            | Refusal::WrittenDefault(place)
            | Refusal::BadCount(place)
            | Refusal::BadItem(place)
            | Refusal::NotRising(place)
            | Refusal::TrailingBytes(place)
            | Refusal::NoLag(place)
            | Refusal::TooLarge(place) => place,
            Refusal::BadArgument
            | Refusal::InvalidInstance
            | Refusal::NotFollowing
            | Refusal::BadMark => 0,
        }
    }
}
