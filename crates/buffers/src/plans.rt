// Plan bytes: x, y, t and the mark of each item.
ghost use Rattle.buffers.specs.Lengths.{piece_length};
ghost use Rattle.sheet.specs.Sheet.{max_items};
ghost use Rattle.std.specs.Prelude.{◌≡◌, ◌+◌, ◌*◌, ◌≤◌, ◌<◌, length};
ghost use Rattle.std.proofs.lemmas.List.Edits.{sets};
ghost use Rattle.buffers.specs.Bytes.{piece_bytes, plan_position, packing_bytes, packing_in};

use crate::words;
use instance::{Packing, Position};

// The position of item u.
fn read_position(s: &[u8], u: usize) -> Position
    requires { (u < max_items) × (piece_length * u + piece_length ≤ length s.now) }
    ensures { result ≡ plan_position s.now u }
{
    let at = crate::PIECE_BYTES * u;
    Position {
        x: words::word_at(s, at),
        y: words::word_at(s, at + 2),
        t: words::word_at(s, at + 4),
    }
}

// The positions and the marks of n items.
pub fn read_packing(s: &[u8], n: usize) -> Packing
    requires { (n ≤ max_items) × (length s.now ≡ piece_length * n) }
    ensures { result ≡ packing_in s.now }
{
    let mut packing = Packing::origin();
    for u in 0..n {
        packing.positions[u] = read_position(s, u);
        packing.marks[u] = s[crate::PIECE_BYTES * u + 6];
    }
    packing
}

fn write_piece(out: &mut [u8], at: usize, p: Position, mark: u8)
    requires { at + piece_length ≤ length out.old }
    ensures { out.new ≡ sets out.old at (piece_bytes p mark) }
{
    words::write_word(out, at, p.x);
    words::write_word(out, at + 2, p.y);
    words::write_word(out, at + 4, p.t);
    out[at + 6] = mark;
}

// The bytes of the first n pieces, which fill the buffer.
pub fn write_packing(out: &mut [u8], packing: Packing, n: usize)
    requires { (n ≤ max_items) × (length out.old ≡ piece_length * n) }
    ensures { out.new ≡ packing_bytes n packing }
{
    for u in 0..n {
        write_piece(
            out,
            crate::PIECE_BYTES * u,
            packing.positions[u],
            packing.marks[u],
        );
    }
}
