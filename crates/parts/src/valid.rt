// When a part may be on a sheet.
#![tactic(auto, using(crate::proofs::Answers::answers), unfolding(crate::specs::Sizes::in_range, crate::specs::Sizes::size_in_range, crate::specs::Precedences::names_items, crate::specs::Precedences::above))]

ghost use Rattle.std.specs.Prelude.{◌≡◌};
ghost use Rattle.parts.specs.Precedences.{above, arc_of, names_items, rises};
ghost use Rattle.parts.specs.Sizes.{in_range, size_in_range};

use crate::{Precedence, Size};

// A measure is from 1 to the greatest.
fn in_range(v: u16) -> bool
    ensures { result ≡ in_range v }
{
    1 <= v && v <= crate::MAX_MEASURE
}

// All three measures are.
pub fn size_in_range(size: Size) -> bool
    ensures { result ≡ size_in_range size }
{
    in_range(size.width) && in_range(size.depth) && in_range(size.shifts)
}

// Both are among n items, and they differ.
pub fn both_items(o: Precedence, n: usize) -> bool
    ensures { result ≡ names_items n (arc_of o) }
{
    usize::from(o.predecessor) < n && usize::from(o.successor) < n && o.predecessor != o.successor
}

// o is above p, by predecessor, then successor: each pair compares as one number, which costs least for each order of a sheet.
pub fn is_above(p: Precedence, o: Precedence) -> bool
    ensures { result ≡ above (arc_of p) (arc_of o) }
{
    let before = 256 * u16::from(p.predecessor) + u16::from(p.successor);
    before < 256 * u16::from(o.predecessor) + u16::from(o.successor)
}

// The precedence is above the one before.
pub fn is_rising(last: Option<Precedence>, o: Precedence) -> bool
    ensures { result ≡ rises last (arc_of o) }
{
    match last {
        None => true,
        Some(p) => is_above(p, o),
    }
}
