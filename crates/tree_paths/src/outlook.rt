// What the domains of a path show.
ghost use Rattle.std.specs.Prelude.{List, ◌≤◌};
ghost use Rattle.model.specs.Branching.{Branch};
ghost use Rattle.model.specs.Problem.{Problem};
ghost use Rattle.chains.specs.Totals.{SameMeasures};
ghost use Rattle.propagation.specs.Propagated.{Ready};
ghost use Rattle.tree_paths.specs.Looks.{Lookable, Looked};

use chains::totals::Totals;
use domains::Place;
use domains::store::Store;
use nodes::branching::choose;
use propagation::propagate;

// An enum of three, and no Result of an Option: the search matches all three at once.
#[derive(Clone, Copy)]
pub enum Outlook {
    Conflict,
    Complete,
    Fork(Place),
}

// Propagates, and tells what the domains show; the pairs before number `from` are separated.
pub fn look(store: &mut Store, totals: &mut Totals, n: usize, from: usize) -> Outlook
    requires { (n ≤ 10) × ((p : Problem) × Ready p store.old.domains store.old.rows store.old.queue totals.old.numbers) }
    ensures measures { SameMeasures totals.old.numbers totals.new.numbers }
    ensures looked { (p : Problem) (path : List Branch)
        → Lookable p n store.old.domains store.old.rows store.old.queue totals.old.numbers path from
        → Looked p path store.new.domains store.new.rows totals.new.numbers result }
{
    if propagate(store, totals).is_err() {
        return Outlook::Conflict;
    }
    match choose(&store.domains, n, from) {
        None => Outlook::Complete,
        Some(place) => Outlook::Fork(place),
    }
}
