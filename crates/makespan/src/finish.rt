// What an earliest finish is.
ghost use Rattle.std.specs.Prelude.{◌≡◌};
ghost use Rattle.instance.specs.Values.{origin_packing};

use instance::Packing;
use search::answer::Answer;

// "The answer is the first length with a placement, with its plan; or none; or spent, with the greatest length already shown impossible", or a
// refusal. The length is 0 where the answer is none; all positions are 0 unless it is placed.
#[derive(Clone, Copy)]
pub struct Finish {
    pub answer: Answer,
    pub length: u16,
    pub steps: u32,
    pub packing: Packing,
}

impl Finish {
    pub(crate) fn without_packing(answer: Answer, length: u16, steps: u32) -> Self
        ensures { result ≡ record { answer = answer; length = length; steps = steps; packing = origin_packing } }
    {
        Finish {
            answer,
            length,
            steps,
            packing: Packing::origin(),
        }
    }
}
