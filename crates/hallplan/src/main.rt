// Plans the sheet on standard input and prints the result.
#![tactic(auto)]

use instance::Instance;
use std::io;
use std::io::Write;

// "the program reads 353" bytes: one more than the longest sheet has.
const SHEET_ROOM: usize = Instance::MAX_BYTES + 1;

fn main(rt: HostRuntime) -> io::Result<()> {
    let mut sheet = [0u8; SHEET_ROOM];
    let n = planner::read_full(&mut rt.stdin(), &mut sheet)?;
    let mut text = [0u8; report::MAX_TEXT];
    let m = planner::sheet_text(&mut text, &sheet[..n]);
    rt.stdout().write_all(&text[..m])
}
