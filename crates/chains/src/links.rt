// Rule 5 where a link is new.
ghost use Rattle.std.specs.Prelude.{◌≡◌, true};
ghost use Rattle.model.specs.Domains.{fixed_before};
ghost use Rattle.chains.specs.Totals.{SameMeasures};
ghost use Rattle.chains.specs.NewLinks.{ExtendsAlong};

use crate::cuts::{Grown, cut_around};
use crate::totals::{STARTS, Totals};
use domains::Place;
use domains::store::{Conflict, Store};

// Rule 5 where the pair's u is known before its v.
pub fn apply_link(store: &mut Store, totals: &mut Totals, place: Place) -> Result<(), Conflict>
    requires { fixed_before store.old.domains place.axis place.u place.v ≡ true }
    ensures measures { SameMeasures totals.old.numbers totals.new.numbers }
    ensures extends_along { ExtendsAlong place.axis place.u place.v store.old store.new totals.old.numbers totals.new.numbers result }
{
    let ends = totals.link_on(&store.rows, 0, 2, place)?;
    let starts = totals.link_on(&store.rows, STARTS, 1, place.turned())?;
    let grown = Grown {
        axis: place.axis,
        ends,
        starts,
    };
    cut_around(store, totals, grown)
}
