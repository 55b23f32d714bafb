// Rule 4: four items in a ring, each known to overlap the next, one diagonal without overlap. The other diagonal overlaps.
ghost use Rattle.std.specs.Prelude.{◌≡◌, true, false, ◌<◌, ◌^◌};
ghost use Rattle.model.specs.Relations.{gone};
ghost use Rattle.model.specs.Facts.{overlaps, Holds};
ghost use Rattle.model.specs.Clauses.{of};
ghost use Rattle.domains.specs.Bits.{bit_at};
ghost use Rattle.domains.specs.Narrowed.{RemovesIf};
ghost use Rattle.rules.specs.Worked.{HandlesIf, Sides, Diagonal, OverlapAll};

use domains::Place;
use domains::bits::{ITEMS, bit, members_of, overlapping};
use domains::store::{Conflict, Store};

// u is made to overlap each item of a set.
fn keep_overlap(store: &mut Store, a: usize, u: usize, items: u32) -> Result<(), Conflict>
    requires { (a < 3) × (u < 10) × (items < 2 ^ 10) × (bit_at items u ≡ false) }
    ensures { RemovesIf (OverlapAll a u items) store.old store.new result }
{
    store.remove(a, u, items << 10 | items << 20)
}

// The rings with the pair q, r as a side, which are known to overlap.
pub fn ring_side(store: &mut Store, place: Place) -> Result<(), Conflict>
    requires { Holds store.old.domains (of overlaps place.axis place.u place.v) }
    ensures { HandlesIf (Sides place.axis place.u place.v) store.old store.new result }
{
    let (a, q, r) = (place.axis, place.u, place.v);
    let corners = overlapping(store.row(a, r)) & store.row(a, q);
    for s in members_of(corners) {
        let items = overlapping(store.row(a, q) & store.row(a, s)) & (bit(r) ^ ITEMS);
        keep_overlap(store, a, r, items)?;
    }
    Ok(())
}

// The rings with the pair q, s as the diagonal, whose overlap is removed.
pub fn ring_across(store: &mut Store, place: Place) -> Result<(), Conflict>
    requires { gone store.old.domains 0 place.axis place.u place.v ≡ true }
    ensures { HandlesIf (Diagonal place.axis place.u place.v) store.old store.new result }
{
    let (a, q, s) = (place.axis, place.u, place.v);
    let items = overlapping(store.row(a, q) & store.row(a, s));
    for r in members_of(items) {
        keep_overlap(store, a, r, items & (bit(r) ^ ITEMS))?;
    }
    Ok(())
}
