// Rules 1 and 4 where two items are known to overlap.
ghost use Rattle.std.specs.Prelude.{◌≡◌, ◌<◌};
ghost use Rattle.model.specs.Facts.{overlaps, Holds};
ghost use Rattle.model.specs.Clauses.{of, Axes};
ghost use Rattle.rules.specs.Worked as W;
ghost use Rattle.rules.specs.Worked.{HandlesIf, Third, Overlapping};

use crate::rings::ring_side;
use domains::Place;
use domains::bits::{bit, has, overlapping};
use domains::store::{Conflict, Store};

// The next axis after a, in a circle.
fn next_axis(a: usize) -> usize
    requires { a < 3 }
    ensures { result ≡ W.next_axis a }
{
    (a + 1) % 3
}

// Rule 1: where the pair of an axis, known to overlap, does so on b too, overlap is removed on the third axis c.
fn third_axis(store: &mut Store, place: Place, b: usize, c: usize) -> Result<(), Conflict>
    requires axes { Axes place.axis b c }
    requires known { Holds store.old.domains (of overlaps place.axis place.u place.v) }
    ensures { HandlesIf (Third place.axis b c place.u place.v) store.old store.new result }
{
    if has(overlapping(store.row(b, place.u)), place.v) {
        store.remove(c, place.u, bit(place.v))
    } else {
        Ok(())
    }
}

// Rule 1 for both other axes, and the rings with the pair as a side.
pub fn overlap(store: &mut Store, place: Place) -> Result<(), Conflict>
    requires { Holds store.old.domains (of overlaps place.axis place.u place.v) }
    ensures { HandlesIf (Overlapping place.axis place.u place.v) store.old store.new result }
{
    let b = next_axis(place.axis);
    let c = next_axis(b);
    third_axis(store, place, b, c)?;
    third_axis(store, place, c, b)?;
    ring_side(store, place)?;
    ring_side(store, place.turned())
}
