// Runs the cases on standard input and prints a line for each. tests/make_vectors.py says what a case is.
#![tactic(auto)]

ghost use Rattle.std.specs.Prelude.{◌≡◌, ◌↔◌, ◌+◌, ◌<◌, ◌≤◌, ◌++◌, drop, length, slice_index, IfOk, IfSome, IsSome, MatchResult};
ghost use Rattle.sheet.specs.Places.{word_at};
ghost use Rattle.instance.specs.Answers.{read_result};
ghost use Rattle.instance.specs.Sheets.{decode};
ghost use Rattle.writer.specs.Answers.{write_answer};

use instance::Instance;
use refusal::Refusal;
use search::answer::Answer;
use std::io;
use std::io::{BufWriter, Read, Write};

// No more of the input is read.
const MOST_INPUT: u64 = 2_097_152;

const MOST_ROOM: usize = 400;

// Filled bytes after the lent room, printed with it.
const GUARD: usize = 4;

fn report_read<W: Write>(out: &mut W, s: &[u8]) -> io::Result<()> {
    match Instance::read(s) {
        Ok(instance) => test_lines::read_instance(out, &instance),
        Err(e) => test_lines::refused(out, e),
    }
}

// Writes into the first bytes of the space, as many as the case says.
fn report_write<W: Write>(out: &mut W, s: &[u8]) -> io::Result<()> {
    let instance = test_values::instance_in(s);
    let room = usize::from(test_values::word_at(s, test_values::INSTANCE_BYTES));
    let fill = test_values::byte_at(s, test_values::INSTANCE_BYTES + 2);
    if room > MOST_ROOM {
        return write!(out, "no such room");
    }
    let mut space = [fill; MOST_ROOM + GUARD];
    match writer::write(instance, &mut space[..room]) {
        Ok(n) => write!(out, "written {n}"),
        Err(e) => test_lines::refused(out, e),
    }?;
    test_lines::bytes(out, &space[..room + GUARD])
}

fn report_record<W: Write>(out: &mut W, s: &[u8]) -> io::Result<()> {
    let Some((k, sheet)) = s.split_first_chunk::<8>() else {
        return write!(out, "no such case");
    };
    let k = usize::from_le_bytes(*k);
    let code = item_record::item_record_refusal(sheet, k);
    write!(out, "record {} {}", code.number, code.place)?;
    let record = item_record::item_record(sheet, k);
    if record.is_empty() {
        return Ok(());
    }
    test_lines::bytes(out, record)
}

fn report_check<W: Write>(out: &mut W, s: &[u8]) -> io::Result<()> {
    let instance = test_values::instance_in(s);
    let packing = test_values::packing_at(s, test_values::INSTANCE_BYTES);
    match packing::check(instance, packing) {
        Ok(true) => write!(out, "feasible"),
        Ok(false) => write!(out, "not feasible"),
        Err(e) => test_lines::refused(out, e),
    }
}

fn report_clearance<W: Write>(out: &mut W, s: &[u8]) -> io::Result<()> {
    let instance = test_values::instance_in(s);
    let packing = test_values::packing_at(s, test_values::INSTANCE_BYTES);
    let rest = test_values::INSTANCE_BYTES + test_values::PACKING_BYTES;
    let u = test_values::number_at(s, rest);
    let v = test_values::number_at(s, rest + 8);
    let axis = test_values::byte_at(s, rest + 16);
    match packing::clearance(instance, packing, u, v, axis) {
        Ok(n) => write!(out, "clearance {n}"),
        Err(e) => test_lines::refused(out, e),
    }
}

// Reads a sheet and writes it again: how many bytes.
#[tactic(auto, unfolding(writer::specs::Answers::write_answer))]
fn rewrite(sheet: &[u8], space: &mut [u8]) -> Result<usize, Refusal>
    ensures value { MatchResult (read_result (decode sheet.now)) (λ i. result ≡ write_answer i (length space.old)) (λ e. result ≡ Err e) }
    ensures within { IfOk result (λ n. n ≤ length space.new) }
{
    writer::write(Instance::read(sheet)?, space)
}

fn report_rewrite<W: Write>(out: &mut W, s: &[u8]) -> io::Result<()> {
    let mut space = [0; Instance::MAX_BYTES];
    match rewrite(s, &mut space) {
        Ok(n) => {
            write!(out, "rewritten {n}")?;
            test_lines::bytes(out, &space[..n])
        }
        Err(e) => test_lines::refused(out, e),
    }
}

fn report_valid<W: Write>(out: &mut W, s: &[u8]) -> io::Result<()> {
    if test_values::instance_in(s).is_valid() {
        write!(out, "valid")
    } else {
        write!(out, "not valid")
    }
}

// What the program prints for a sheet.
fn report_run<W: Write>(out: &mut W, s: &[u8]) -> io::Result<()> {
    let mut text = [0u8; report::MAX_TEXT];
    let m = planner::sheet_text(&mut text, s);
    out.write_all(&text[..m])
}

fn report_finish<W: Write>(out: &mut W, s: &[u8]) -> io::Result<()> {
    let instance = test_values::instance_in(s);
    let budget = test_values::four_at(s, test_values::INSTANCE_BYTES) as u32;
    let finish = makespan::earliest_finish(instance, budget);
    if let Answer::Refused(e) = finish.answer {
        return test_lines::refused(out, e);
    }
    let code = finish.answer.number();
    write!(out, "finish {code} {} {}", finish.length, finish.steps)?;
    test_lines::packing(out, finish.packing)
}

// What a case asks for is its first byte, as tests/make_vectors.py writes it. It is met here alone, so no enum stands for it.
fn report<W: Write>(out: &mut W, op: u8, s: &[u8]) -> io::Result<()> {
    match op {
        1 => report_read(out, s),
        2 => report_write(out, s),
        3 => report_record(out, s),
        4 => report_check(out, s),
        5 => report_clearance(out, s),
        6 => report_rewrite(out, s),
        7 => report_valid(out, s),
        8 => report_run(out, s),
        9 => report_finish(out, s),
        _ => write!(out, "no such case"),
    }?;
    writeln!(out)
}

// What the first case asks for, its bytes, and what is left after it; nothing where no whole case is left.
fn split_case(s: &[u8]) -> Option<(u8, &[u8], &[u8])>
    ensures whole { IsSome result ↔ (3 + word_at s.now 1 ≤ length s.now) }
    ensures parts { IfSome result (λ r. (r.0 ≡ slice_index s.now 0) × (length r.1.now ≡ word_at s.now 1) × (drop 3 s.now ≡ r.1.now ++ r.2.now)) }
    ensures shorter { IfSome result (λ r. length r.2.now < length s.now) }
{
    let (head, rest) = s.split_first_chunk::<3>()?;
    let [op, low, high] = *head;
    let len = u16::from_le_bytes([low, high]);
    let (case, rest) = rest.split_at_checked(usize::from(len))?;
    Some((op, case, rest))
}

fn report_all<W: Write>(out: &mut W, cases: &[u8]) -> io::Result<()> {
    let mut left = cases;
    while let Some((op, case, rest)) = split_case(left) {
        report(out, op, case)?;
        left = rest;
    }
    Ok(())
}

fn main(rt: HostRuntime) -> io::Result<()> {
    // Room for all of it and a byte to meet the end with: grown as the cases came, it would be got twice over.
    let mut cases = Vec::with_capacity(rt.alloc(), MOST_INPUT as usize + 1)?;
    rt.stdin().take(MOST_INPUT).read_to_end(&mut cases)?;
    let mut out = BufWriter::new(rt.alloc(), io::writer(&rt))?;
    report_all(&mut out, &cases)?;
    out.flush()
}
