// A checkpoint's path: branches with 0 for first and 1 for second, the first branch first.
ghost use Rattle.sheet.specs.Sheet.{max_branches};
ghost use Rattle.std.specs.Prelude.{◌≡◌, List, ◌≤◌};
ghost use Rattle.std.proofs.Math.ListN as L;
ghost use Rattle.model.specs.Branching.{Branch};
ghost use Rattle.model.specs.Search as S;
ghost use Rattle.tree_paths.specs.Checkpoints.{well_formed, all_branches, length_allowed, Bits, branches_of, path_of, PathIn, Backed};

use instance::{Checkpoint, Instance, Status};

// A path of branches, 0 for first and 1 for second, the first branch first. Entries past the length are no part of it.
#[derive(Clone, Copy)]
pub struct Path {
    pub branches: [u8; Instance::MAX_BRANCHES],
    pub length: usize,
    ghost bits: { Bits length branches },
}

impl Path {
    ghost use Rattle.tree_paths.specs.Paths.{PathOf};

    // The path of a checkpoint; or none, where the value is no checkpoint.
    pub fn of(checkpoint: Checkpoint) -> Option<Path>
        ensures { PathOf checkpoint result }
    {
        if !is_well_formed(checkpoint) {
            return None;
        }
        let Checkpoint {
            length,
            branches,
            ..
        } = checkpoint;
        Some(Path { branches, length })
    }
}

// Whether the length is allowed with the status.
fn length_allowed(status: Status, length: usize) -> bool
    ensures { result ≡ length_allowed status length }
{
    match status {
        Status::Infeasible => length == 0,
        Status::Open | Status::Packed => true,
    }
}

// Whether the value is a checkpoint: at most 270 branches, each first or second, and none of an infeasible one.
pub fn is_well_formed(checkpoint: Checkpoint) -> bool
    ensures { result ≡ well_formed checkpoint }
{
    checkpoint.length <= Instance::MAX_BRANCHES
        && length_allowed(checkpoint.status, checkpoint.length)
        && all_branches(checkpoint.branches, checkpoint.length)
}

// Whether each of the first n is 0 or 1.
fn all_branches(branches: [u8; Instance::MAX_BRANCHES], n: usize) -> bool
    requires { n ≤ max_branches }
    ensures { result ≡ all_branches n branches }
{
    for i in 0..n {
        if 1 < branches[i] {
            return false;
        }
    }
    true
}

// The branches of the path, with 0 past its length.
pub fn path_branches(path: Path) -> [u8; Instance::MAX_BRANCHES]
    ensures { result ≡ branches_of (path_of path.length path.branches) }
{
    let mut branches = [0; Instance::MAX_BRANCHES];
    for i in 0..path.length {
        branches[i] = path.branches[i];
    }
    branches
}

// Drops the trailing second branches and makes the last first one second: how many are left.
pub fn back(branches: &mut [u8; Instance::MAX_BRANCHES], length: usize) -> usize
    requires { (L.length branches.old ≡ max_branches) × (length ≤ max_branches) }
    ensures { (path : List Branch) → PathIn path branches.old length → Backed (S.backtrack path) branches.new result }
{
    for last in (0..length).rev() {
        if branches[last] == 0 {
            branches[last] = 1;
            return last + 1;
        }
        branches[last] = 0;
    }
    0
}
