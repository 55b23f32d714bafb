// The earliest finish for a C program.
ghost use Rattle.std.specs.Prelude.{◌≡◌};
ghost use Rattle.formats.specs.Reading.{Bytes};
ghost use Rattle.c_api.specs.Calls.{code_of};
ghost use Rattle.c_api.specs.Finishes.{finish_fits, finish_code, length_after, finish_steps_after, finish_plan_after};

use crate::{code_of, outputs_fit, put_answer};
use buffers::words;
use instance::Instance;
use instance::valid::ValidInstance;
use refusal::Refusal;

// The shortest time, in shifts, in which the sheet has a plan: 0 spent, 1 placed, 2 none, 100 plus the number of a refusal.
pub fn hallplan_finish(
    sheet: &[u8],
    allowance: u32,
    shifts: &mut [u8],
    steps: &mut [u8],
    plan: &mut [u8],
) -> u32
    ensures value { result ≡ finish_code sheet.now allowance shifts.old steps.old plan.old }
    ensures shifts_after { shifts.new ≡ length_after sheet.now allowance shifts.old steps.old plan.old }
    ensures steps_after { steps.new ≡ finish_steps_after sheet.now allowance shifts.old steps.old plan.old }
    ensures plan_after { plan.new ≡ finish_plan_after sheet.now allowance shifts.old steps.old plan.old }
    ensures bytes { Bytes sheet.now }
{
    code_of(finish_sheet(sheet, allowance, shifts, steps, plan))
}

// Whether the lent buffers are as long as they must be.
fn finish_fits(valid: ValidInstance, shifts: usize, steps: usize, plan: usize) -> bool
    ensures { result ≡ finish_fits valid.instance shifts steps plan }
{
    shifts == buffers::FINISH_BYTES && outputs_fit(valid, steps, plan)
}

// The number of the sheet's earliest finish; what it leaves in the lent buffers.
fn finish_sheet(
    sheet: &[u8],
    allowance: u32,
    shifts: &mut [u8],
    steps: &mut [u8],
    plan: &mut [u8],
) -> Result<u32, Refusal>
    ensures value { code_of result ≡ finish_code sheet.now allowance shifts.old steps.old plan.old }
    ensures shifts_after { shifts.new ≡ length_after sheet.now allowance shifts.old steps.old plan.old }
    ensures steps_after { steps.new ≡ finish_steps_after sheet.now allowance shifts.old steps.old plan.old }
    ensures plan_after { plan.new ≡ finish_plan_after sheet.now allowance shifts.old steps.old plan.old }
{
    let instance = Instance::read(sheet)?;
    let valid = ValidInstance { instance };
    if !finish_fits(valid, shifts.len(), steps.len(), plan.len()) {
        return Err(Refusal::BadArgument);
    }
    let finish = makespan::earliest_finish(instance, allowance);
    words::write_word(shifts, 0, finish.length);
    let code = put_answer(
        finish.answer,
        finish.steps,
        finish.packing,
        instance.item_count,
        steps,
        plan,
    );
    Ok(code)
}
