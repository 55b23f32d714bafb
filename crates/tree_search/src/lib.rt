// The search of one problem: along a path from the root, and then the steps of a call.
#![tactic(auto)]

ghost use Rattle.std.specs.Prelude.{◌≡◌, List, [], ℕ};
ghost use Rattle.model.specs.Problem.{Problem};
ghost use Rattle.model.specs.Run as R;
ghost use Rattle.model.specs.Search as S;
ghost use Rattle.instance.specs.Meaning.{problem_of};
ghost use Rattle.nodes.specs.Nodes.{At};
ghost use Rattle.tree_paths.specs.Checkpoints.{path_of};
ghost use Rattle.tree_search.specs.Results.{tree_result};

use crate::frontier::Frontier;
use crate::outcome::{Outcome, TreeResult};
use instance::valid::ValidInstance;
use nodes::snapshots::{MAX_LEVELS, Snapshot};
use nodes::starts::starts_of;
use opening::Root;
use tree_paths::outlook::Outlook;
use tree_paths::path::{Path, path_branches};

mod frontier;
pub mod outcome;

// The call where the opening domains are inconsistent.
fn dead_end(length: usize, budget: u32) -> TreeResult
    ensures { (p : Problem) (given : List ℕ) → R.look p [] ≡ S.conflict → result ≡ tree_result p budget (S.open_at (path_of length given)) }
{
    if length != 0 {
        return TreeResult::of(Outcome::NotFollowing, 0);
    }
    if budget == 0 {
        return TreeResult::of(Outcome::Spent, 0);
    }
    TreeResult::of(Outcome::Infeasible, 1)
}

// The call on an open path: from the root along it, and then the steps, while the budget lasts.
// Not inlined, so that a root stands on the stack once, whoever calls.
#[inline(never)]
pub fn run(valid: ValidInstance, path: Path, budget: u32) -> TreeResult
    ensures { result ≡ tree_result (problem_of valid.instance) budget (S.open_at (path_of path.length path.branches)) }
{
    let Ok(root) = opening::root_of(valid) else {
        return dead_end(path.length, budget);
    };
    run_from(&root, valid, path, budget)
}

// The same from the root. The frontier's branches are those to take at each branching point: the path's, and past it 0, the first.
// Not inlined: the snapshots take most of the stack, and what it takes to make the root is free again here.
#[inline(never)]
fn run_from(root: &Root, valid: ValidInstance, path: Path, budget: u32) -> TreeResult
    requires { At (problem_of valid.instance) root.now.store.domains root.now.store.rows root.now.store.queue root.now.totals.numbers [] }
    ensures { result ≡ tree_result (problem_of valid.instance) budget (S.open_at (path_of path.length path.branches)) }
{
    let n = valid.instance.item_count;
    let mut snapshots = [Snapshot::blank(); MAX_LEVELS];
    let mut frontier = Frontier {
        store: root.store,
        totals: root.totals,
        kept: 0,
        branches: path_branches(path),
        depth: 0,
        from: 0,
    };
    if !frontier.follow(&mut snapshots, n, path.length) {
        return TreeResult::of(Outcome::NotFollowing, 0);
    }
    for steps in 0..budget {
        match frontier.look(n) {
            Outlook::Fork(place) => frontier.go_on(&mut snapshots, place),
            Outlook::Conflict => {
                if !frontier.go_back(&snapshots) {
                    return TreeResult::of(Outcome::Infeasible, steps + 1);
                }
            }
            Outlook::Complete => {
                return TreeResult {
                    positions: starts_of(&frontier.totals.numbers, n),
                    ..frontier.result(Outcome::Packed, steps + 1)
                };
            }
        }
    }
    frontier.result(Outcome::Spent, budget)
}

// The call on a packed path: one step from it, which is none of this call, must come to it again.
pub fn repeat(valid: ValidInstance, path: Path) -> TreeResult
    ensures { (budget : ℕ) → result ≡ tree_result (problem_of valid.instance) budget (S.packed_at (path_of path.length path.branches)) }
{
    let again = run(valid, path, 1);
    match again.outcome {
        Outcome::Packed => TreeResult { steps: 0, ..again },
        Outcome::Infeasible | Outcome::Spent | Outcome::NotFollowing => {
            TreeResult::of(Outcome::NotFollowing, 0)
        }
    }
}
