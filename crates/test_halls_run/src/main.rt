// Runs every row of document 01's table "Small halls", and halls with the lags, the walkway and the pieces that may be turned of document 02, #101, #105
// and #106, and prints what the program prints for each.
#![tactic(auto)]

ghost use Rattle.std.specs.Prelude.{◌≡◌, ◌≤◌, IfOk};
ghost use Rattle.sheet.specs.Sheet.{max_items};
ghost use Rattle.search.specs.Results.{search_result};

use instance::{Checkpoint, Instance};
use std::io;
use std::io::Write;

// One call with the program's budget.
fn run<W: Write>(out: &mut W, sheet: &[u8]) -> io::Result<()> {
    let mut text = [0u8; report::MAX_TEXT];
    let m = planner::sheet_text(&mut text, sheet);
    out.write_all(&text[..m])
}

// One call with a budget; returns the checkpoint that it leads to.
fn resume<W: Write>(
    out: &mut W,
    instance: Instance,
    checkpoint: Checkpoint,
    budget: u32,
) -> io::Result<Checkpoint>
    requires { instance.item_count ≤ max_items }
    ensures { IfOk result (λ c. c ≡ (search_result instance checkpoint budget).checkpoint) }
{
    let result = search::search(instance, checkpoint, budget);
    let mut text = [0u8; report::MAX_TEXT];
    let m = planner::result_text(&mut text, instance.item_count, result);
    out.write_all(&text[..m])?;
    Ok(result.checkpoint)
}

// Budgets 0, 1, 1, 1, each call from the checkpoint that the last one returned.
fn resume_all<W: Write>(out: &mut W, instance: Instance) -> io::Result<()>
    requires { instance.item_count ≤ max_items }
{
    let mut checkpoint = Instance::opening();
    for budget in [0, 1, 1, 1] {
        checkpoint = resume(out, instance, checkpoint, budget)?;
    }
    Ok(())
}

fn run_in_parts<W: Write>(out: &mut W, sheet: &[u8]) -> io::Result<()> {
    match Instance::read(sheet) {
        Ok(instance) => resume_all(out, instance),
        Err(_) => run(out, sheet),
    }
}

fn starred<W: Write>(out: &mut W) -> io::Result<()> {
    // byte 00 alone
    run(out, b"\x00")?;
    // 2×1×2; 2×1×1, 1×1×1; order 1,0
    run(out, b"\x1d\x02\x00\x02\x00\x02\x01\x02\x00\x00\x01\x01\x00")?;
    // the same, no order
    run(out, b"\x0d\x02\x00\x02\x00\x02\x01\x02\x00\x00")?;
    // 2×1×1; same pieces, order 1,0
    run(out, b"\x19\x02\x00\x02\x01\x02\x00\x00\x01\x01\x00")?;
    // 1×1×1; 2×1×1
    run(out, b"\x08\x01\x01\x02\x00")?;
    // 1×1×1; 1×1×1
    run(out, b"\x08\x01\x00")?;
    // 2×2×2; two of 1×1×1
    run(out, b"\x0f\x02\x00\x02\x00\x02\x00\x02\x00\x00")?;
    // the last, allowances 0, 1, 1, 1
    run_in_parts(out, b"\x0f\x02\x00\x02\x00\x02\x00\x02\x00\x00")?;
    // 2×1×1; three of 1×1×1
    run(out, b"\x09\x02\x00\x03\x00\x00\x00")?;
    // 3×1×3; three of 1×1×1; orders 0,1 1,2 2,0
    run(
        out,
        b"\x1d\x03\x00\x03\x00\x03\x00\x00\x00\x03\x00\x01\x01\x02\x02\x00",
    )?;
    // bytes 01 01 00
    run(out, b"\x01\x01\x00")?;
    // bytes 01 02
    run(out, b"\x01\x02")
}

// 100×1×shifts; boxes 7, 8, 11, 16, 17 of 000's table 6.4 with okp17-4's orders:
// 8 before 16 and 17, 11 before 7, 8 and 16, 16 before 7, 17 before 16
fn boxes<W: Write>(out: &mut W, shifts: u8) -> io::Result<()> {
    let mut sheet =
        *b"\x1d\x64\x00\x00\x00\x05\x05\x3a\x00\x14\x00\x05\x63\x00\x03\x00\x05\x07\x00\x35\x00\x05\x0b\
          \x00\x5a\x00\x05\x1a\x00\x41\x00\x07\x01\x03\x01\x04\x02\x00\x02\x01\x02\x03\x03\x00\x04\x03";
    sheet[3] = shifts;
    run(out, &sheet)
}

// 1×1×shifts; three of 1×1×1; orders 0,1 0,2 1,2 with lags 1, 5, 0
fn waiting<W: Write>(out: &mut W, shifts: u8) -> io::Result<()> {
    let mut sheet = *b"\x5c\x00\x00\x03\x00\x00\x00\x03\x00\x01\x00\x02\x01\x02\x01\x05\x00";
    sheet[1] = shifts;
    run(out, &sheet)
}

// width×1×1; two of 4×1×1; a walkway of 1
fn passage<W: Write>(out: &mut W, width: u8) -> io::Result<()> {
    let mut sheet = *b"\x89\x00\x00\x02\x01\x04\x00\x01\x04\x00\x01";
    sheet[1] = width;
    run(out, &sheet)
}

fn turning<W: Write>(out: &mut W) -> io::Result<()> {
    // 1×2×1; 2×1×1 that may turn, and that may not
    run(out, b"\x0a\x02\x00\x01\x09\x02\x00")?;
    run(out, b"\x0a\x02\x00\x01\x01\x02\x00")?;
    // 3×1×1; 1×1×1 and 1×2×1, both may turn
    run(out, b"\x09\x03\x00\x02\x08\x0a\x02\x00")?;
    // 1×1×1; two of 1×1×1 that may turn
    run(out, b"\x08\x02\x08\x08")?;
    // bit 4 of a piece's map
    run(out, b"\x08\x01\x10")
}

fn main(rt: HostRuntime) -> io::Result<()> {
    let mut out = rt.stdout();
    starred(&mut out)?;
    // bytes 40; 00 00; 08 00. The first by 02, #101: "byte 40 alone is now refused 11 1"
    run(&mut out, b"\x40")?;
    run(&mut out, b"\x00\x00")?;
    run(&mut out, b"\x08\x00")?;
    // 100×1×231 and 100×1×230
    boxes(&mut out, 231)?;
    boxes(&mut out, 230)?;
    // 1×1×7 and 1×1×6
    waiting(&mut out, 7)?;
    waiting(&mut out, 6)?;
    // the two of 4×1×1 without a walkway in 8×1×1, with it in 9×1×1 and 8×1×1
    run(&mut out, b"\x09\x08\x00\x02\x01\x04\x00\x01\x04\x00")?;
    passage(&mut out, 9)?;
    passage(&mut out, 8)?;
    // bytes 80 00; 80; c0
    run(&mut out, b"\x80\x00")?;
    run(&mut out, b"\x80")?;
    run(&mut out, b"\xc0")?;
    turning(&mut out)
}
