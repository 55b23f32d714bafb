// The program's work between reading its input and writing its output: from a sheet to the text.
#![tactic(auto)]

ghost use Rattle.sheet.specs.Sheet.{max_items};
ghost use Rattle.report.specs.Text.{max_text, with_front};
ghost use Rattle.std.specs.Prelude.{◌≡◌, ◌≤◌, ◌<◌, length, take, IfOk};
ghost use Rattle.std.specs.Io.KnownBytes.{Consumes, IsAtEnd};
ghost use Rattle.planner.specs.Program.{result_text, program_text};

use instance::Instance;
use search::answer::{Answer, SearchResult};
use std::io;
use std::io::Read;

// The steps of the program's one call.
pub const BUDGET: u32 = 1_000_000;

// The text of a call's result, for an instance of n items.
#[tactic(auto, unfolding(crate::specs::Program::result_text))]
pub fn result_text(out: &mut [u8], n: usize, res: SearchResult) -> usize
    requires { (n ≤ max_items) × (max_text ≤ length out.old) }
    ensures value { (result ≡ length (result_text n res)) × (result ≤ max_text) }
    ensures out_after { out.new ≡ with_front (result_text n res) out.old }
{
    match res.answer {
        Answer::Packed => report::packed(out, res.steps, res.packing, n),
        Answer::Infeasible => report::infeasible(out, res.steps),
        Answer::BudgetSpent => report::spent(out, res.steps),
        Answer::Refused(e) => report::refused(out, e),
    }
}

// The text of a sheet.
#[tactic(auto, using(crate::proofs::Programs::texts))]
pub fn sheet_text(out: &mut [u8], sheet: &[u8]) -> usize
    requires { max_text ≤ length out.old }
    ensures value { (result ≡ length (program_text sheet.now)) × (result ≤ max_text) }
    ensures out_after { out.new ≡ with_front (program_text sheet.now) out.old }
{
    match Instance::read(sheet) {
        Ok(instance) => {
            let result = search::search(instance, Instance::opening(), BUDGET);
            result_text(out, instance.item_count, result)
        }
        Err(e) => report::refused(out, e),
    }
}

// Fills the buffer from the input, up to the input's end; returns how many bytes came: the input's next ones, and all of them if the buffer has room left.
pub fn read_full<R: Read>(input: &mut R, buffer: &mut [u8]) -> io::Result<usize>
    ensures within { IfOk result (λ n. n ≤ length buffer.new) }
    ensures came { IfOk result (λ n. Consumes (R.remaining input.old) (R.remaining input.new) (take n buffer.new)) }
    ensures whole { IfOk result (λ n. n < length buffer.new → IsAtEnd (R.remaining input.new)) }
{
    let mut n: usize = 0;
    while n < buffer.len() {
        let more = input.read(&mut buffer[n..])?;
        if more == 0 {
            break;
        }
        n += more;
    }
    Ok(n)
}
