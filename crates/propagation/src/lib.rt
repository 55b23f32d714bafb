// Each pair that changed is worked off once: all rules with a premise of it.
#![tactic(auto)]

ghost use Rattle.std.specs.Prelude.{◌+◌};
ghost use Rattle.model.specs.Clauses.{Lawful};
ghost use Rattle.domains.specs.Bits.{bit_at};
ghost use Rattle.domains.specs.Narrowed.{NarrowsIf};
ghost use Rattle.chains.specs.Totals.{SameMeasures};
ghost use Rattle.chains.specs.NewLinks.{ExtendsAlong};
ghost use Rattle.propagation.specs.Events.{InOrder, Overlapped, WorksOff};
ghost use Rattle.propagation.specs.Propagated.{Propagates};

use chains::links::apply_link;
use chains::totals::Totals;
use domains::Place;
use domains::bits::has;
use domains::store::{Conflict, Store};
use rules::overlaps::overlap;
use rules::paths::follow;
use rules::rings::ring_across;

// The pair with the earlier item first, one order of it being known by the row of u.
fn in_order(row: u32, place: Place) -> Place
    ensures { InOrder (bit_at row (20 + place.v)) place.axis place.u place.v result.axis result.u result.v }
{
    if has(row, 20 + place.v) {
        place
    } else {
        place.turned()
    }
}

// Rule 5 where one order of the pair is known.
fn work_order(store: &mut Store, totals: &mut Totals, place: Place) -> Result<(), Conflict>
    ensures measures { SameMeasures totals.old.numbers totals.new.numbers }
    ensures extends_along { ExtendsAlong place.axis place.u place.v store.old store.new totals.old.numbers totals.new.numbers result }
{
    let row = store.row(place.axis, place.u);
    if has(row, place.v) && has(row | row >> 10, 10 + place.v) {
        return apply_link(store, totals, in_order(row, place));
    }
    Ok(())
}

// Rules 1 and 4 where the pair is known to overlap or not to.
fn work_overlap(store: &mut Store, place: Place) -> Result<(), Conflict>
    ensures { NarrowsIf Lawful (Overlapped place.axis place.u place.v store.old.domains) store.old store.new result }
{
    let row = store.row(place.axis, place.u);
    if has(row, place.v) {
        return ring_across(store, place);
    }
    if has(row, 10 + place.v) && has(row, 20 + place.v) {
        return overlap(store, place);
    }
    Ok(())
}

// All rules with a premise of the pair.
fn work_off(store: &mut Store, totals: &mut Totals, place: Place) -> Result<(), Conflict>
    ensures measures { SameMeasures totals.old.numbers totals.new.numbers }
    ensures works_off { WorksOff place.axis place.u place.v store.old store.new totals.old.numbers totals.new.numbers result }
{
    work_order(store, totals, place)?;
    follow(store, place)?;
    work_overlap(store, place)
}

// All rules until nothing more can be removed, or a conflict. The queue grows while it is worked off, so this is no `for`.
#[inline(never)]
pub fn propagate(store: &mut Store, totals: &mut Totals) -> Result<(), Conflict>
    ensures measures { SameMeasures totals.old.numbers totals.new.numbers }
    ensures propagates { Propagates store.old store.new totals.old.numbers totals.new.numbers result }
{
    let mut head: usize = 1;
    while head < store.queue_end() {
        let place = store.changed(head);
        work_off(store, totals, place)?;
        head += 1;
    }
    Ok(())
}
