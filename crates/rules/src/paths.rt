// Rules 2 and 3.
ghost use Rattle.rules.specs.Worked.{HandlesIf, PathsFrom, Paths, Pathable, Reached};

use domains::Place;
use domains::bits::{AFTER, BEFORE, following, has, leading};
use domains::store::{Conflict, Store};

// What is removed from the row of u over v, by the rows of both.
fn beyond(near: u32, far: u32, v: usize) -> u32
    requires { Pathable near far v }
    ensures { Reached near far v result }
{
    if has(near, v) {
        if has(near, 20 + v) {
            return far & AFTER | following(far);
        }
        if has(near, 10 + v) {
            return far & BEFORE | leading(far);
        }
        return 0;
    }
    let before = if has(near, 10 + v) {
        leading(far) << 10
    } else {
        0
    };
    let after = if has(near, 20 + v) {
        following(far) << 20
    } else {
        0
    };
    before | after
}

// Rules 2 and 3 from u over v on.
#[inline(always)]
fn follow_from(store: &mut Store, place: Place) -> Result<(), Conflict>
    ensures { HandlesIf (PathsFrom place.axis place.u place.v) store.old store.new result }
{
    let Place { axis, u, v } = place;
    store.remove(axis, u, beyond(store.row(axis, u), store.row(axis, v), v))
}

// Rules 2 and 3 with the pair as a premise.
pub fn follow(store: &mut Store, place: Place) -> Result<(), Conflict>
    ensures { HandlesIf (Paths place.axis place.u place.v) store.old store.new result }
{
    follow_from(store, place)?;
    follow_from(store, place.turned())
}
