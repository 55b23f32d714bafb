// What the search of one problem returns.
ghost use Rattle.std.specs.Prelude.{◌≡◌, []};
ghost use Rattle.tree_paths.specs.Checkpoints.{branches_of};
ghost use Rattle.tree_search.specs.Results.{ended};

use instance::{Instance, Position};

// What a call comes to: a packing, none, the budget spent on the way, or a path that does not follow the problem.
#[derive(Clone, Copy)]
pub enum Outcome {
    Packed,
    Infeasible,
    Spent,
    NotFollowing,
}

// The outcome, the steps taken, the path that they lead to and, where packed, the positions.
#[derive(Clone, Copy)]
pub struct TreeResult {
    pub outcome: Outcome,
    pub steps: u32,
    pub length: usize,
    pub branches: [u8; Instance::MAX_BRANCHES],
    pub positions: [Position; Instance::MAX_ITEMS],
}

impl TreeResult {
    // An outcome after so many steps, with no path, and all items at the origin.
    pub(crate) fn of(outcome: Outcome, steps: u32) -> Self
        ensures { result ≡ ended outcome steps (branches_of []) 0 }
    {
        TreeResult {
            outcome,
            steps,
            length: 0,
            branches: [0; Instance::MAX_BRANCHES],
            positions: [Position { x: 0, y: 0, t: 0 }; Instance::MAX_ITEMS],
        }
    }
}
