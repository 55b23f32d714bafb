// Where a search is: a path, its domains and totals, and the snapshots to go back to.
ghost use Rattle.std.specs.Prelude.{◌≡◌, List, ℕ};
ghost use Rattle.model.specs.Branching.{Branch};
ghost use Rattle.model.specs.Problem.{Problem};
ghost use Rattle.nodes.specs.declared.snapshots.Snapshot.{Snapshot};
ghost use Rattle.tree_search.specs.Frontiers.{AtPath, Shows, AtFork, WentOn, AtConflict, WentBack, AtRoot, Follows};
ghost use Rattle.tree_search.specs.Results.{ended};

use crate::outcome::{Outcome, TreeResult};
use chains::totals::Totals;
use domains::Place;
use domains::queue::place_of;
use domains::store::Store;
use instance::Instance;
use nodes::branching::apply_branch;
use nodes::snapshots::{MAX_LEVELS, Snapshot};
use pairs::pair_number;
use tree_paths::outlook::{self, Outlook};
use tree_paths::path;

// The path has `depth` branches, and the pairs before number `from` are separated in its domains. Of the branching points at which it takes the first
// branch there are `kept` snapshots. Those are an array of their own: within a literal they would stand on the stack twice.
#[derive(Drop)]
pub struct Frontier {
    pub store: Store,
    pub totals: Totals,
    pub kept: usize,
    pub branches: [u8; Instance::MAX_BRANCHES],
    pub depth: usize,
    pub from: usize,
}

impl Frontier {
    // What the path's domains show.
    #[inline(always)]
    pub fn look(&mut self, n: usize) -> Outlook
        requires { (p : Problem) × (path : List Branch) × (s : List Snapshot) × AtPath p n self.old s path }
        ensures { (p : Problem) (path : List Branch) (s : List Snapshot) → AtPath p n self.old s path → Shows p path s self.old self.new result }
    {
        outlook::look(&mut self.store, &mut self.totals, n, self.from)
    }

    // Goes on from a branching point by the branch that is due: the point is kept where that is the first.
    #[inline(always)]
    pub fn go_on(&mut self, snapshots: &mut [Snapshot; MAX_LEVELS], place: Place)
        requires { (p : Problem) × (path : List Branch) × AtFork p path self.old snapshots.old place }
        ensures { (p : Problem) (path : List Branch) → AtFork p path self.old snapshots.old place → WentOn p path self.old self.new snapshots.new }
    {
        let branch = self.branches[self.depth];
        snapshots[self.kept].save(&self.store, &self.totals, place);
        self.kept = self.kept + 1 - usize::from(branch);
        self.depth += 1;
        self.from = pair_number(place.u, place.v);
        apply_branch(
            &mut self.store.domains,
            &mut self.store.rows,
            &mut self.store.queue,
            place,
            branch != 0,
        );
    }

    // Goes back to the last branching point at which the path takes the first branch, and takes the second; or there is no such point.
    pub fn go_back(&mut self, snapshots: &[Snapshot; MAX_LEVELS]) -> bool
        requires { (p : Problem) × (path : List Branch) × AtConflict p path self.old snapshots.now }
        ensures { (p : Problem) (path : List Branch) → AtConflict p path self.old snapshots.now → WentBack p path self.new snapshots.now result }
    {
        self.depth = path::back(&mut self.branches, self.depth);
        if self.depth == 0 {
            return false;
        }
        self.kept -= 1;
        let snapshot = &snapshots[self.kept];
        let place = place_of(snapshot.code);
        snapshot.load(&mut self.store, &mut self.totals);
        self.from = pair_number(place.u, place.v);
        apply_branch(
            &mut self.store.domains,
            &mut self.store.rows,
            &mut self.store.queue,
            place,
            true,
        );
        true
    }

    // Goes along a path from the root, to the end of its first `length` branches; or one of them starts at no branching point.
    pub fn follow(
        &mut self,
        snapshots: &mut [Snapshot; MAX_LEVELS],
        n: usize,
        length: usize,
    ) -> bool
        requires { (p : Problem) × (given : List ℕ) × AtRoot p n length given self.old snapshots.old }
        ensures { (p : Problem) (given : List ℕ) → AtRoot p n length given self.old snapshots.old → Follows p length given self.new snapshots.new result }
    {
        for _branch in 0..length {
            let Outlook::Fork(place) = self.look(n) else {
                return false;
            };
            self.go_on(snapshots, place);
        }
        true
    }

    // An outcome after so many steps, at the path, and all items at the origin.
    pub fn result(&self, outcome: Outcome, steps: u32) -> TreeResult
        ensures { result ≡ ended outcome steps self.now.branches self.now.depth }
    {
        TreeResult {
            length: self.depth,
            branches: self.branches,
            ..TreeResult::of(outcome, steps)
        }
    }
}
