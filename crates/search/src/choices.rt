// The choices of an instance, searched one after the other.
ghost use Rattle.std.specs.Prelude.{◌≡◌, ℕ, ◌≤◌, ◌<◌, ◌+◌};
ghost use Rattle.model.specs.Turning.{choice_problem, last_choice};
ghost use Rattle.model.specs.Series.{stage};
ghost use Rattle.model.specs.Search as S;
ghost use Rattle.instance.specs.Meaning.{problem_of};
ghost use Rattle.turning.specs.Turned.{turnable_of};
ghost use Rattle.tree_paths.specs.Checkpoints.{path_of};
ghost use Rattle.tree_search.specs.Results.{tree_result};
ghost use Rattle.search.specs.Results.{answer_in, followed, noted};

use crate::answer::{Answer, SearchResult};
use instance::valid::ValidInstance;
use instance::{Checkpoint, Packing, Status};
use refusal::Refusal;
use tree_paths::path::Path;
use tree_search::outcome::{Outcome, TreeResult};

// What the search of one choice comes to, after `before` steps in the choices before it.
fn answer_in(
    valid: ValidInstance,
    checkpoint: Checkpoint,
    choice: u16,
    before: u32,
    tried: TreeResult,
) -> SearchResult
    requires { before + tried.steps < 4294967296 }
    ensures { result ≡ answer_in (turnable_of valid.instance) checkpoint choice before tried }
{
    let steps = before + tried.steps;
    match tried.outcome {
        Outcome::Packed => {
            let positions = tried.positions;
            let marks = turning::marks_of(valid.instance, choice);
            SearchResult {
                answer: Answer::Packed,
                steps,
                checkpoint: reached(tried, Status::Packed, choice),
                packing: Packing { positions, marks },
            }
        }
        Outcome::Infeasible => SearchResult::infeasible(steps, choice),
        Outcome::Spent => {
            let checkpoint = reached(tried, Status::Open, choice);
            SearchResult::without_packing(Answer::BudgetSpent, steps, checkpoint)
        }
        Outcome::NotFollowing => SearchResult::refused(Refusal::NotFollowing, checkpoint),
    }
}

// The path that the search of a choice came to.
fn reached(tried: TreeResult, status: Status, choice: u16) -> Checkpoint
    ensures { result ≡ noted status tried.length tried.branches choice }
{
    let TreeResult {
        length,
        branches,
        ..
    } = tried;
    Checkpoint {
        status,
        length,
        branches,
        choice,
    }
}

// The instance of a choice: with the items turned that it marks.
fn turned_in(valid: ValidInstance, choice: u16) -> ValidInstance
    ensures { problem_of result.instance ≡ choice_problem (turnable_of valid.instance) choice }
{
    let marks = turning::marks_of(valid.instance, choice);
    let instance = turning::turned(valid.instance, marks);
    ValidInstance { instance }
}

// The search of one choice from a path.
fn try_choice(valid: ValidInstance, choice: u16, path: Path, budget: u32) -> TreeResult
    ensures { result ≡ tree_result (choice_problem (turnable_of valid.instance) choice) budget (S.open_at (path_of path.length path.branches)) }
{
    tree_search::run(turned_in(valid, choice), path, budget)
}

// The call on an open checkpoint: its choice from its path on, and each later choice from its root, until one is not infeasible or was the last:
// "the step that would say "none" opens the next choice .. instead, until the last".
pub fn run(valid: ValidInstance, checkpoint: Checkpoint, path: Path, budget: u32) -> SearchResult
    requires { checkpoint.choice ≤ last_choice (turnable_of valid.instance) }
    ensures { result ≡ followed (turnable_of valid.instance) budget checkpoint (stage checkpoint.choice (S.open_at (path_of path.length path.branches))) }
{
    let last = turning::last_choice(valid.instance);
    let mut ahead = path;
    let mut left = budget;
    for choice in checkpoint.choice..last {
        let tried = try_choice(valid, choice, ahead, left);
        if !matches!(tried.outcome, Outcome::Infeasible) {
            return answer_in(valid, checkpoint, choice, budget - left, tried);
        }
        left -= tried.steps;
        ahead.length = 0;
    }
    let tried = try_choice(valid, last, ahead, left);
    answer_in(valid, checkpoint, last, budget - left, tried)
}

// The call on an infeasible checkpoint: its choice must be the last.
pub fn repeat_infeasible(valid: ValidInstance, checkpoint: Checkpoint) -> SearchResult
    requires { checkpoint.choice ≤ last_choice (turnable_of valid.instance) }
    ensures { (budget : ℕ) → result ≡ followed (turnable_of valid.instance) budget checkpoint (stage checkpoint.choice S.infeasible) }
{
    if turning::last_choice(valid.instance) != checkpoint.choice {
        return SearchResult::refused(Refusal::NotFollowing, checkpoint);
    }
    SearchResult::infeasible(0, checkpoint.choice)
}

// The call on a packed checkpoint: its path must be packed in its choice.
// Not inlined, so that what it takes of the stack isn't there where an open one is searched.
#[inline(never)]
pub fn repeat_packed(valid: ValidInstance, checkpoint: Checkpoint, path: Path) -> SearchResult
    requires { checkpoint.choice ≤ last_choice (turnable_of valid.instance) }
    ensures { (budget : ℕ)
        → result ≡ followed (turnable_of valid.instance) budget checkpoint (stage checkpoint.choice (S.packed_at (path_of path.length path.branches))) }
{
    let turned = turned_in(valid, checkpoint.choice);
    let again = tree_search::repeat(turned, path);
    answer_in(valid, checkpoint, checkpoint.choice, 0, again)
}
