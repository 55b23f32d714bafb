// Check, pieces and search for a C program: numbers and byte slices.
#![tactic(auto)]

ghost use Rattle.sheet.specs.Sheet.{max_items};
ghost use Rattle.buffers.specs.Bytes.{packing_bytes, step_bytes};
ghost use Rattle.buffers.specs.Lengths.{note_length, steps_length, piece_length};
ghost use Rattle.std.specs.Prelude.{◌≡◌, ◌*◌, ◌≤◌, length};
ghost use Rattle.formats.specs.Reading.{Bytes};
ghost use Rattle.search.specs.Results.{answer_number};
ghost use Rattle.c_api.specs.Calls.{check_code, pieces_code, search_code, note_after, steps_after, plan_after};
ghost use Rattle.c_api.specs.Calls.{code_of, outputs_fit, lengths_fit};
ghost use Rattle.c_api.specs.Calls.{instance_code, instance_note, instance_steps, instance_plan};
ghost use Rattle.c_api.specs.Calls.{PathFits, when_packed, note_left, steps_left, plan_left};

use buffers::{checkpoints, plans, words};
use instance::valid::ValidInstance;
use instance::{Instance, Packing};
use refusal::Refusal;
use search::answer::{Answer, SearchResult};

pub mod finish;

// Whether the plan fits the sheet: 0 no, 1 yes, 100 plus the number of a refusal.
pub fn hallplan_check(sheet: &[u8], plan: &[u8]) -> u32
    ensures value { result ≡ check_code sheet.now plan.now }
    ensures bytes { Bytes sheet.now }
{
    code_of(check_plan(sheet, plan))
}

// How many pieces the sheet has; 100 plus the number of a refusal.
pub fn hallplan_pieces(sheet: &[u8]) -> u32
    ensures value { result ≡ pieces_code sheet.now }
    ensures bytes { Bytes sheet.now }
{
    code_of(count_pieces(sheet))
}

// One call of the search: 0 spent, 1 placed, 2 none, 100 plus the number of a refusal.
pub fn hallplan_search(
    sheet: &[u8],
    note: &mut [u8],
    allowance: u32,
    steps: &mut [u8],
    plan: &mut [u8],
) -> u32
    ensures value { result ≡ search_code sheet.now note.old allowance steps.old plan.old }
    ensures note_after { note.new ≡ note_after sheet.now note.old allowance steps.old plan.old }
    ensures steps_after { steps.new ≡ steps_after sheet.now note.old allowance steps.old plan.old }
    ensures plan_after { plan.new ≡ plan_after sheet.now note.old allowance steps.old plan.old }
    ensures bytes { Bytes sheet.now × Bytes note.old }
{
    code_of(search_sheet(sheet, note, allowance, steps, plan))
}

// The number that C is handed for an answer or a refusal.
fn code_of(answer: Result<u32, Refusal>) -> u32
    ensures { result ≡ code_of answer }
{
    answer.unwrap_or_else(|e| 100 + u32::from(e.number()))
}

// The number of the check of the plan on the sheet.
fn check_plan(sheet: &[u8], plan: &[u8]) -> Result<u32, Refusal>
    ensures { code_of result ≡ check_code sheet.now plan.now }
{
    let instance = Instance::read(sheet)?;
    let n = instance.item_count;
    if plan.len() != buffers::PIECE_BYTES * n {
        return Err(Refusal::BadArgument);
    }
    let packing = plans::read_packing(plan, n);
    let fits = packing::check(instance, packing)?;
    Ok(u32::from(fits))
}

// The number of the sheet's pieces.
fn count_pieces(sheet: &[u8]) -> Result<u32, Refusal>
    ensures { code_of result ≡ pieces_code sheet.now }
{
    let instance = Instance::read(sheet)?;
    Ok(instance.item_count as u32)
}

// Whether the step bytes and the plan bytes are as many as they must be. They stay two slices, and no struct of both, since C hands each over by itself, and
// each contract would have to say of such a struct what it borrows.
#[tactic(auto, using(crate::proofs::Sheets::few_items))]
fn outputs_fit(valid: ValidInstance, steps: usize, plan: usize) -> bool
    ensures { result ≡ outputs_fit valid.instance steps plan }
{
    steps == buffers::STEP_BYTES && plan == buffers::PIECE_BYTES * valid.instance.item_count
}

// Whether the buffers lent to the search are as long as they must be.
fn lengths_fit(valid: ValidInstance, note: usize, steps: usize, plan: usize) -> bool
    ensures { result ≡ lengths_fit valid.instance note steps plan }
{
    note == buffers::NOTE_BYTES && outputs_fit(valid, steps, plan)
}

// The number of the search's call on the sheet; what it leaves in the lent buffers.
fn search_sheet(
    sheet: &[u8],
    note: &mut [u8],
    allowance: u32,
    steps: &mut [u8],
    plan: &mut [u8],
) -> Result<u32, Refusal>
    ensures value { code_of result ≡ search_code sheet.now note.old allowance steps.old plan.old }
    ensures note_after { note.new ≡ note_after sheet.now note.old allowance steps.old plan.old }
    ensures steps_after { steps.new ≡ steps_after sheet.now note.old allowance steps.old plan.old }
    ensures plan_after { plan.new ≡ plan_after sheet.now note.old allowance steps.old plan.old }
{
    let instance = Instance::read(sheet)?;
    search_instance(ValidInstance { instance }, note, allowance, steps, plan)
}

// The same on the instance that its sheet reads as. It is a function of its own, so that nothing of what a search needs is cleared for a sheet that is refused.
fn search_instance(
    valid: ValidInstance,
    note: &mut [u8],
    allowance: u32,
    steps: &mut [u8],
    plan: &mut [u8],
) -> Result<u32, Refusal>
    ensures value { code_of result ≡ instance_code valid.instance note.old allowance steps.old plan.old }
    ensures note_after { note.new ≡ instance_note valid.instance note.old allowance steps.old plan.old }
    ensures steps_after { steps.new ≡ instance_steps valid.instance note.old allowance steps.old plan.old }
    ensures plan_after { plan.new ≡ instance_plan valid.instance note.old allowance steps.old plan.old }
{
    let instance = valid.instance;
    if !lengths_fit(valid, note.len(), steps.len(), plan.len()) {
        return Err(Refusal::BadArgument);
    }
    if !checkpoints::is_checkpoint(note) {
        return Err(Refusal::NotFollowing);
    }
    let checkpoint = checkpoints::read_checkpoint(note);
    let result = search::search(instance, checkpoint, allowance);
    hand_over(result, instance.item_count, note, steps, plan)
}

// The result's number; its bytes in the lent buffers, where it is not refused.
fn hand_over(
    res: SearchResult,
    n: usize,
    note: &mut [u8],
    steps: &mut [u8],
    plan: &mut [u8],
) -> Result<u32, Refusal>
    requires path_fits { PathFits res.answer res.checkpoint.length }
    requires note_len { (length note.old ≡ note_length) × (length steps.old ≡ steps_length) × (length plan.old ≡ piece_length * n) × (n ≤ max_items) }
    ensures value { code_of result ≡ answer_number res.answer }
    ensures note_after { note.new ≡ note_left res note.old }
    ensures steps_after { steps.new ≡ steps_left res steps.old }
    ensures plan_after { plan.new ≡ plan_left n res plan.old }
{
    if let Answer::Refused(e) = res.answer {
        return Err(e);
    }
    checkpoints::write_checkpoint(note, res.checkpoint);
    Ok(put_answer(res.answer, res.steps, res.packing, n, steps, plan))
}

// The number of an answer; its steps and, where it is placed, its plan in the lent buffers.
fn put_answer(
    answer: Answer,
    taken: u32,
    packing: Packing,
    n: usize,
    steps: &mut [u8],
    plan: &mut [u8],
) -> u32
    requires { (length steps.old ≡ steps_length) × (length plan.old ≡ piece_length * n) × (n ≤ max_items) }
    ensures value { result ≡ answer_number answer }
    ensures steps_after { steps.new ≡ step_bytes taken }
    ensures plan_after { plan.new ≡ when_packed answer plan.old (packing_bytes n packing) }
{
    words::write_steps(steps, taken);
    if matches!(answer, Answer::Packed) {
        plans::write_packing(plan, packing, n);
    }
    u32::from(answer.number())
}
