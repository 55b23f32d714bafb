// The functions of `c_api` under their names for C (include/hallplan.h), each with the same contract.
#![tactic(auto)]

ghost use Rattle.std.specs.Prelude.{◌≡◌};
ghost use Rattle.formats.specs.Reading.{Bytes};
ghost use Rattle.c_api.specs.Calls.{check_code, pieces_code, search_code, note_after, steps_after, plan_after};
ghost use Rattle.c_api.specs.Finishes.{finish_code, length_after, finish_steps_after, finish_plan_after};

// Whether the plan fits the sheet: 0 no, 1 yes, 100 plus the number of a refusal.
#[unsafe(no_mangle)]
pub extern "C" fn hallplan_check(sheet: &[u8], plan: &[u8]) -> u32
    ensures value { result ≡ check_code sheet.now plan.now }
    ensures bytes { Bytes sheet.now }
{
    c_api::hallplan_check(sheet, plan)
}

// How many pieces the sheet has; 100 plus the number of a refusal.
#[unsafe(no_mangle)]
pub extern "C" fn hallplan_pieces(sheet: &[u8]) -> u32
    ensures value { result ≡ pieces_code sheet.now }
    ensures bytes { Bytes sheet.now }
{
    c_api::hallplan_pieces(sheet)
}

// One call of the search: 0 spent, 1 placed, 2 none, 100 plus the number of a refusal.
#[unsafe(no_mangle)]
pub extern "C" fn hallplan_search(
    sheet: &[u8],
    note: &mut [u8],
    allowance: u32,
    steps: &mut [u8],
    plan: &mut [u8],
) -> u32
    ensures value { result ≡ search_code sheet.now note.old allowance steps.old plan.old }
    ensures note_after { note.new ≡ note_after sheet.now note.old allowance steps.old plan.old }
    ensures steps_after { steps.new ≡ steps_after sheet.now note.old allowance steps.old plan.old }
    ensures plan_after { plan.new ≡ plan_after sheet.now note.old allowance steps.old plan.old }
    ensures bytes { Bytes sheet.now × Bytes note.old }
{
    c_api::hallplan_search(sheet, note, allowance, steps, plan)
}

// The shortest time, in shifts, in which the sheet has a plan: 0 spent, 1 placed, 2 none, 100 plus the number of a refusal.
#[unsafe(no_mangle)]
pub extern "C" fn hallplan_finish(
    sheet: &[u8],
    allowance: u32,
    shifts: &mut [u8],
    steps: &mut [u8],
    plan: &mut [u8],
) -> u32
    ensures value { result ≡ finish_code sheet.now allowance shifts.old steps.old plan.old }
    ensures shifts_after { shifts.new ≡ length_after sheet.now allowance shifts.old steps.old plan.old }
    ensures steps_after { steps.new ≡ finish_steps_after sheet.now allowance shifts.old steps.old plan.old }
    ensures plan_after { plan.new ≡ finish_plan_after sheet.now allowance shifts.old steps.old plan.old }
    ensures bytes { Bytes sheet.now }
{
    c_api::finish::hallplan_finish(sheet, allowance, shifts, steps, plan)
}
