// The earliest finish: the least number of shifts in which an instance has a packing.
#![tactic(auto)]

ghost use Rattle.std.specs.Prelude.{◌≡◌, ◌≤◌, ◌*◌};
ghost use Rattle.model.specs.Earliest.{earliest_finish};
ghost use Rattle.instance.specs.Reads.{Full};
ghost use Rattle.turning.specs.Turned.{turnable_of};
ghost use Rattle.makespan.specs.Results.{finish_of, finish_result, choices_of, ConflictIf, LastConflict};

use crate::finish::Finish;
use instance::Instance;
use instance::valid::ValidInstance;
use refusal::Refusal;
use search::answer::Answer;

pub mod finish;

// The earliest finish under a budget of steps for all lengths together.
pub fn earliest_finish(instance: Instance, budget: u32) -> Finish
    ensures value { result ≡ finish_result instance budget }
    ensures full { Full instance }
{
    let Ok(valid) = instance.validated() else {
        return Finish::without_packing(Answer::Refused(Refusal::InvalidInstance), 0, 0);
    };
    let choices = u32::from(turning::last_choice(valid.instance)) + 1;
    let known = conflicts(valid, choices);
    let affordable = budget / choices;
    if affordable < u32::from(known) {
        return Finish::without_packing(Answer::BudgetSpent, affordable as u16, budget);
    }
    try_lengths(valid, known, u32::from(known) * choices, budget)
}

// Whether the opening domains of every choice are inconsistent: so many steps as there are choices say none.
fn in_conflict(valid: ValidInstance, choices: u32) -> bool
    requires { choices ≡ choices_of (turnable_of valid.instance) }
    ensures { ConflictIf (turnable_of valid.instance) result }
{
    let first = search::search(valid.instance, Instance::opening(), choices);
    matches!(first.answer, Answer::Infeasible)
}

// The greatest length at which the opening domains of every choice are inconsistent, 0 if there is none. They are so at every shorter one, and one
// step a choice shows each of these impossible: so they need not be tried.
fn conflicts(valid: ValidInstance, choices: u32) -> u16
    requires { choices ≡ choices_of (turnable_of valid.instance) }
    ensures { LastConflict (turnable_of valid.instance) result }
{
    let mut shortened = valid.instance;
    let mut low: u16 = 0;
    let mut high = shortened.container.shifts;
    while low < high {
        let middle = high - (high - low) / 2;
        shortened.container.shifts = middle;
        let tried = ValidInstance {
            instance: shortened,
        };
        if in_conflict(tried, choices) {
            low = middle;
        } else {
            high = middle - 1;
        }
    }
    low
}

// The lengths past those known impossible, which take `before` steps, one after the other, each searched from the opening under what is left of the budget.
fn try_lengths(valid: ValidInstance, known: u16, before: u32, budget: u32) -> Finish
    requires { (before ≡ known * choices_of (turnable_of valid.instance)) × (before ≤ budget) × LastConflict (turnable_of valid.instance) known }
    ensures { result ≡ finish_of (turnable_of valid.instance) (earliest_finish (turnable_of valid.instance) budget) }
{
    let mut shortened = valid.instance;
    let most = shortened.container.shifts;
    let mut left = budget - before;
    for length in known..most {
        let next = length + 1;
        shortened.container.shifts = next;
        let tried = search::search(shortened, Instance::opening(), left);
        match tried.answer {
            Answer::Packed => {
                return Finish {
                    answer: Answer::Packed,
                    length: next,
                    steps: budget - left + tried.steps,
                    packing: tried.packing,
                };
            }
            Answer::Infeasible => left -= tried.steps,
            Answer::BudgetSpent => {
                return Finish::without_packing(Answer::BudgetSpent, length, budget);
            }
            Answer::Refused(e) => return Finish::without_packing(Answer::Refused(e), 0, 0),
        }
    }
    Finish::without_packing(Answer::Infeasible, 0, budget - left)
}
