// Writers. Each is handed a buffer with room enough and the place where its part starts, and returns the place after it.
#![tactic(auto, using(crate::proofs::Writers::writings))]

ghost use Rattle.std.specs.Prelude.{◌≡◌, ◌+◌, ◌≤◌, length, cond, []};
ghost use Rattle.std.proofs.lemmas.List.Edits.{sets};
ghost use Rattle.formats.specs.Fields.{flags, optional_bytes, fields_bytes};
ghost use Rattle.parts.specs.Precedences.{arc_of};
ghost use Rattle.parts.specs.Parts.{number, byte_number, size_fields, item_fields, item, precedence};

use crate::{Item, Precedence, Size};

// Writes the bytes of a field, or none where it is left out.
fn write_unless(out: &mut [u8], at: usize, left_out: bool, bytes: &[u8]) -> usize
    requires { at + length (cond left_out [] bytes.now) ≤ length out.old }
    ensures value { result ≡ at + length (cond left_out [] bytes.now) }
    ensures out_after { out.new ≡ sets out.old at (cond left_out [] bytes.now) }
{
    if left_out {
        return at;
    }
    let end = at + bytes.len();
    out[at..end].copy_from_slice(bytes);
    end
}

// A two-byte field, low byte first; it is left out for `default`.
pub fn write_field(out: &mut [u8], at: usize, default: u16, v: u16) -> usize
    requires { at + length (optional_bytes (number default) v) ≤ length out.old }
    ensures value { result ≡ at + length (optional_bytes (number default) v) }
    ensures out_after { out.new ≡ sets out.old at (optional_bytes (number default) v) }
{
    write_unless(out, at, v == default, &v.to_le_bytes())
}

// The same of one byte, which is left out for 0: a count, the walkway.
pub fn write_byte(out: &mut [u8], at: usize, n: usize) -> usize
    requires { (n ≤ 255) × (at + length (optional_bytes byte_number n) ≤ length out.old) }
    ensures value { result ≡ at + length (optional_bytes byte_number n) }
    ensures out_after { out.new ≡ sets out.old at (optional_bytes byte_number n) }
{
    write_unless(out, at, n == 0, &[n as u8])
}

// The bits of the measures that are written: those above 1.
pub fn size_flags_of(size: Size) -> u8
    ensures { (result ≡ flags size_fields size) × (result ≤ 7) }
{
    u8::from(size.width != 1) + 2 * u8::from(size.depth != 1) + 4 * u8::from(size.shifts != 1)
}

pub fn size_len(size: Size) -> usize
    ensures { (result ≡ length (fields_bytes size_fields size)) × (result ≤ 6) }
{
    let written = usize::from(size.width != 1)
        + usize::from(size.depth != 1)
        + usize::from(size.shifts != 1);
    2 * written
}

pub fn write_size(out: &mut [u8], at: usize, size: Size) -> usize
    requires { at + length (fields_bytes size_fields size) ≤ length out.old }
    ensures value { result ≡ at + length (fields_bytes size_fields size) }
    ensures out_after { out.new ≡ sets out.old at (fields_bytes size_fields size) }
{
    let a = write_field(out, at, 1, size.width);
    let b = write_field(out, a, 1, size.depth);
    write_field(out, b, 1, size.shifts)
}

// An item's map byte: bit 3 says that it may be turned.
pub fn item_flags_of(i: Item) -> u8
    ensures { result ≡ flags item_fields i }
{
    size_flags_of(i.size) + 8 * u8::from(i.may_turn)
}

pub fn item_len(i: Item) -> usize
    ensures { (result ≡ length (item.bytes i)) × (result ≤ 7) }
{
    1 + size_len(i.size)
}

pub fn write_item(out: &mut [u8], at: usize, i: Item) -> usize
    requires { at + length (item.bytes i) ≤ length out.old }
    ensures value { result ≡ at + length (item.bytes i) }
    ensures out_after { out.new ≡ sets out.old at (item.bytes i) }
{
    out[at] = item_flags_of(i);
    write_size(out, at + 1, i.size)
}

// The lag is not written here: the lags have a field of their own.
pub fn write_precedence(out: &mut [u8], at: usize, o: Precedence) -> usize
    requires { at + 2 ≤ length out.old }
    ensures value { result ≡ at + 2 }
    ensures out_after { out.new ≡ sets out.old at (precedence.bytes (arc_of o)) }
{
    out[at] = o.predecessor;
    out[at + 1] = o.successor;
    at + 2
}
