// Numbers as bytes, low byte first.
ghost use Rattle.std.specs.Prelude.{◌≡◌, ◌+◌, ◌≤◌, length};
ghost use Rattle.std.proofs.lemmas.List.Edits.{sets};
ghost use Rattle.sheet.specs.Places.{word_at};
ghost use Rattle.buffers.specs.Bytes.{word_bytes, step_bytes};

// The word that starts at a place.
pub fn word_at(s: &[u8], at: usize) -> u16
    requires { at + 2 ≤ length s.now }
    ensures { result ≡ word_at s.now at }
{
    u16::from_le_bytes([s[at], s[at + 1]])
}

pub fn write_word(out: &mut [u8], at: usize, v: u16)
    requires { at + 2 ≤ length out.old }
    ensures { out.new ≡ sets out.old at (word_bytes v) }
{
    out[at..at + 2].copy_from_slice(&v.to_le_bytes());
}

// The four bytes of steps.
pub fn write_steps(out: &mut [u8], m: u32)
    requires { length out.old ≡ 4 }
    ensures { out.new ≡ step_bytes m }
{
    out.copy_from_slice(&m.to_le_bytes());
}
