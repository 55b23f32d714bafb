// The text that the program prints, made in a lent buffer.
#![tactic(auto)]

ghost use Rattle.sheet.specs.Sheet.{max_items};
ghost use Rattle.report.specs.Text.{max_text};
ghost use Rattle.std.specs.Prelude.{◌≡◌, ◌≤◌, length};
ghost use Rattle.report.specs.Text.{with_front, packed_text, infeasible_text, spent_text, refused_text};

use instance::Packing;
use refusal::Refusal;

mod put;

// No text is longer: an answer's line has at most 18 bytes, and each of ten items' lines at most 24.
pub const MAX_TEXT: usize = 258;

// A packing of n items, found after so many steps.
pub fn packed(out: &mut [u8], steps: u32, packing: Packing, n: usize) -> usize
    requires { (n ≤ max_items) × (max_text ≤ length out.old) }
    ensures value { (result ≡ length (packed_text steps packing n)) × (result ≤ max_text) }
    ensures out_after { out.new ≡ with_front (packed_text steps packing n) out.old }
{
    let at = put::put_answer(out, b"placed", steps);
    at + put::put_items(&mut out[at..], packing, n)
}

// No packing exists, known after so many steps.
pub fn infeasible(out: &mut [u8], steps: u32) -> usize
    requires { max_text ≤ length out.old }
    ensures value { (result ≡ length (infeasible_text steps)) × (result ≤ max_text) }
    ensures out_after { out.new ≡ with_front (infeasible_text steps) out.old }
{
    put::put_answer(out, b"none", steps)
}

// The budget was spent in so many steps.
pub fn spent(out: &mut [u8], steps: u32) -> usize
    requires { max_text ≤ length out.old }
    ensures value { (result ≡ length (spent_text steps)) × (result ≤ max_text) }
    ensures out_after { out.new ≡ with_front (spent_text steps) out.old }
{
    put::put_answer(out, b"spent", steps)
}

// The input was refused.
pub fn refused(out: &mut [u8], e: Refusal) -> usize
    requires { max_text ≤ length out.old }
    ensures value { (result ≡ length (refused_text e)) × (result ≤ max_text) }
    ensures out_after { out.new ≡ with_front (refused_text e) out.old }
{
    let at = put::put_bytes(out, b"refused");
    at + put::put_fields(&mut out[at..], &[u64::from(e.number()), e.place() as u64])
}
