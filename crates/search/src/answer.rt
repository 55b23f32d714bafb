// What a call answers, and its result.
ghost use Rattle.std.specs.Prelude.{◌≡◌};
ghost use Rattle.instance.specs.Values.{origin_packing};
ghost use Rattle.search.specs.Results.{answer_number, result_refused, infeasible_after};

use instance::{Checkpoint, Instance, Packing, Status};
use refusal::Refusal;

// "It answers placed with the plan, none, or spent", or refuses. A refusal is a case here and no `Err`: note and steps are handed back with it too, and
// the theorem on lists of calls, demands `every_list`, reads them of each answer alike.
#[derive(Clone, Copy)]
pub enum Answer {
    Packed,
    Infeasible,
    BudgetSpent,
    Refused(Refusal),
}

#[derive(Clone, Copy)]
pub struct SearchResult {
    pub answer: Answer,
    pub steps: u32,
    pub checkpoint: Checkpoint,
    pub packing: Packing,
}

impl Answer {
    // 0 spent, 1 placed, 2 none, 100 plus the number of a refusal.
    pub fn number(self) -> u8
        ensures { result ≡ answer_number self }
    {
        match self {
            Answer::BudgetSpent => 0,
            Answer::Packed => 1,
            Answer::Infeasible => 2,
            Answer::Refused(e) => 100 + e.number(),
        }
    }
}

impl SearchResult {
    // The checkpoint as it came, and nothing else.
    #[tactic(auto, unfolding(crate::specs::Results::result_refused))]
    pub(crate) fn refused(e: Refusal, checkpoint: Checkpoint) -> Self
        ensures { result ≡ result_refused e checkpoint }
    {
        Self::without_packing(Answer::Refused(e), 0, checkpoint)
    }

    // No packing, after so many steps: with the last choice.
    #[tactic(auto, unfolding(crate::specs::Results::infeasible_after, tree_paths::specs::Checkpoints::branches_of))]
    pub(crate) fn infeasible(steps: u32, choice: u16) -> Self
        ensures { result ≡ infeasible_after steps choice }
    {
        let checkpoint = Checkpoint {
            status: Status::Infeasible,
            length: 0,
            branches: [0; Instance::MAX_BRANCHES],
            choice,
        };
        Self::without_packing(Answer::Infeasible, steps, checkpoint)
    }

    // Where nothing is packed, all positions and marks are 0.
    pub(crate) fn without_packing(answer: Answer, steps: u32, checkpoint: Checkpoint) -> Self
        ensures { result ≡ record { answer = answer; steps = steps; checkpoint = checkpoint; packing = origin_packing } }
    {
        SearchResult {
            answer,
            steps,
            checkpoint,
            packing: Packing::origin(),
        }
    }
}
