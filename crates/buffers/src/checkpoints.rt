// Note bytes: status, length of the path, 270 branches, choice.
ghost use Rattle.buffers.specs.Lengths.{note_length};
ghost use Rattle.sheet.specs.Sheet.{max_branches};
ghost use Rattle.std.specs.Prelude.{◌≡◌, ◌+◌, ◌≤◌, length, drop};
ghost use Rattle.std.proofs.lemmas.List.Edits.{sets};
ghost use Rattle.buffers.specs.Checkpoints.{status_byte, status_of, checkpoint_bytes, branches_in, checkpoint_in, all_zero, is_checkpoint};

use crate::words;
use instance::{Checkpoint, Instance, Status};

const BRANCHES_AT: usize = 3;

const CHOICE_AT: usize = BRANCHES_AT + Instance::MAX_BRANCHES;

// The byte of a status, and the status of a byte: functions, since an impl of From would have to stand in `instance`, which knows no bytes of notes.
fn status_byte(status: Status) -> u8
    ensures { result ≡ status_byte status }
{
    match status {
        Status::Open => 0,
        Status::Infeasible => 1,
        Status::Packed => 2,
    }
}

fn status_of(b: u8) -> Status
    ensures { result ≡ status_of b }
{
    match b {
        0 => Status::Open,
        1 => Status::Infeasible,
        _ => Status::Packed,
    }
}

// Whether every byte from a place on is 0.
fn zero_from(s: &[u8], from: usize) -> bool
    ensures { result ≡ all_zero (drop from s.now) }
{
    s.iter().skip(from).all(|b| *b == 0)
}

// Whether the bytes hold a checkpoint: a status of the three, and branches that are 0 past the path's length.
pub fn is_checkpoint(note: &[u8]) -> bool
    requires { length note.now ≡ note_length }
    ensures { result ≡ is_checkpoint note.now }
{
    let branches = &note[BRANCHES_AT..CHOICE_AT];
    note[0] <= 2 && zero_from(branches, usize::from(words::word_at(note, 1)))
}

pub fn read_checkpoint(note: &[u8]) -> Checkpoint
    requires { length note.now ≡ note_length }
    ensures { result ≡ checkpoint_in note.now }
{
    let mut branches = [0; Instance::MAX_BRANCHES];
    branches.copy_from_slice(&note[BRANCHES_AT..CHOICE_AT]);
    Checkpoint {
        status: status_of(note[0]),
        length: usize::from(words::word_at(note, 1)),
        branches,
        choice: words::word_at(note, CHOICE_AT),
    }
}

// The bytes of a checkpoint, which fill the buffer.
pub fn write_checkpoint(out: &mut [u8], checkpoint: Checkpoint)
    requires { (length out.old ≡ note_length) × (checkpoint.length ≤ max_branches) }
    ensures { out.new ≡ checkpoint_bytes checkpoint }
{
    out[0] = status_byte(checkpoint.status);
    words::write_word(out, 1, checkpoint.length as u16);
    out[BRANCHES_AT..CHOICE_AT].copy_from_slice(&checkpoint.branches);
    words::write_word(out, CHOICE_AT, checkpoint.choice);
}
