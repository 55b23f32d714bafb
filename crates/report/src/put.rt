// Parts of a text. Each is put at the front of a buffer with room enough; how many bytes it has is returned.
ghost use Rattle.sheet.specs.Sheet.{max_items};
ghost use Rattle.std.specs.Prelude.{◌≡◌, ◌*◌, ◌≤◌, ◌<◌, length};
ghost use Rattle.report.specs.Decimal.{decimal};
ghost use Rattle.report.specs.Text.{with_front, text_field, text_fields, answer_line, item_line, item_lines};

use instance::{Packing, Position};

pub fn put_bytes(out: &mut [u8], bytes: &[u8]) -> usize
    requires { length bytes.now ≤ length out.old }
    ensures value { result ≡ length bytes.now }
    ensures out_after { out.new ≡ with_front bytes.now out.old }
{
    out[..bytes.len()].copy_from_slice(bytes);
    bytes.len()
}

// A number in decimal, digit by digit: what `write!` puts is known only where it answers Ok, and no contract says that it does.
fn put_decimal(out: &mut [u8], n: u64) -> usize
    requires { length (decimal n) ≤ length out.old }
    ensures value { result ≡ length (decimal n) }
    ensures out_after { out.new ≡ with_front (decimal n) out.old }
{
    if n < 10 {
        out[0] = b'0' + n as u8;
        return 1;
    }
    let at = put_decimal(out, n / 10);
    out[at] = b'0' + (n % 10) as u8;
    at + 1
}

// A space and a number.
fn put_field(out: &mut [u8], n: u64) -> usize
    requires { length (text_field n) ≤ length out.old }
    ensures value { result ≡ length (text_field n) }
    ensures out_after { out.new ≡ with_front (text_field n) out.old }
{
    out[0] = b' ';
    1 + put_decimal(&mut out[1..], n)
}

// Numbers, a space before each, and the end of the line.
pub fn put_fields(out: &mut [u8], numbers: &[u64]) -> usize
    requires { length (text_fields numbers.now) ≤ length out.old }
    ensures value { result ≡ length (text_fields numbers.now) }
    ensures out_after { out.new ≡ with_front (text_fields numbers.now) out.old }
{
    let mut at = 0;
    for n in numbers {
        at += put_field(&mut out[at..], *n);
    }
    out[at] = b'\n';
    at + 1
}

// An answer's word and the steps.
pub fn put_answer(out: &mut [u8], word: &[u8], steps: u32) -> usize
    requires { (length word.now ≤ 6) × (18 ≤ length out.old) }
    ensures value { (result ≡ length (answer_line word.now steps)) × (result ≤ 18) }
    ensures out_after { out.new ≡ with_front (answer_line word.now steps) out.old }
{
    let at = put_bytes(out, word);
    at + put_fields(&mut out[at..], &[u64::from(steps)])
}

// An item's line.
fn put_item(out: &mut [u8], u: usize, p: Position, mark: u8) -> usize
    requires { (u < max_items) × (24 ≤ length out.old) }
    ensures value { (result ≡ length (item_line u p mark)) × (result ≤ 24) }
    ensures out_after { out.new ≡ with_front (item_line u p mark) out.old }
{
    let numbers = [
        u64::from(p.x),
        u64::from(p.y),
        u64::from(p.t),
        u64::from(mark),
    ];
    let at = put_decimal(out, u as u64);
    at + put_fields(&mut out[at..], &numbers)
}

// The lines of n items.
pub fn put_items(out: &mut [u8], packing: Packing, n: usize) -> usize
    requires { (n ≤ max_items) × (24 * n ≤ length out.old) }
    ensures value { (result ≡ length (item_lines packing n)) × (result ≤ 24 * n) }
    ensures out_after { out.new ≡ with_front (item_lines packing n) out.old }
{
    let mut at = 0;
    for u in 0..n {
        at += put_item(&mut out[at..], u, packing.positions[u], packing.marks[u]);
    }
    at
}
