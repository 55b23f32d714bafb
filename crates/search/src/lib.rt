// One call of the search: with a budget of steps, from a checkpoint to the next.
#![tactic(auto)]

ghost use Rattle.std.specs.Prelude.{◌≡◌};
ghost use Rattle.instance.specs.Reads.{Full};
ghost use Rattle.search.specs.Results.{search_result};

use crate::answer::SearchResult;
use instance::{Checkpoint, Instance, Status};
use refusal::Refusal;
use tree_paths::path::Path;

pub mod answer;
mod choices;

// One call: the answer, the steps taken, the checkpoint that they lead to and, where packed, the packing.
pub fn search(instance: Instance, checkpoint: Checkpoint, budget: u32) -> SearchResult
    ensures value { result ≡ search_result instance checkpoint budget }
    ensures full { Full instance }
{
    let Ok(valid) = instance.validated() else {
        return SearchResult::refused(Refusal::InvalidInstance, checkpoint);
    };
    let Some(path) = Path::of(checkpoint) else {
        return SearchResult::refused(Refusal::NotFollowing, checkpoint);
    };
    if turning::last_choice(valid.instance) < checkpoint.choice {
        return SearchResult::refused(Refusal::NotFollowing, checkpoint);
    }
    match checkpoint.status {
        Status::Open => choices::run(valid, checkpoint, path, budget),
        Status::Infeasible => choices::repeat_infeasible(valid, checkpoint),
        Status::Packed => choices::repeat_packed(valid, checkpoint, path),
    }
}
