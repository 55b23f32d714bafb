// Instances and packings from bytes at fixed places, for the tests: any value of the types, also one that no sheet gives.
// The low byte is first; a byte past the end counts as 0.
// Bytes and a place in them are two arguments, as in the clauses of what is called from outside; a struct of both would be taken apart at
// once. The bounds on places are there so that a few can be added.
#![tactic(auto)]

ghost use Rattle.std.specs.Prelude.{◌≡◌, ◌+◌, ◌*◌, ◌<◌, ◌≤◌, ◌^◌, get_or};
ghost use Rattle.sheet.specs.Places.{byte_at, word_at};
ghost use Rattle.test_values.specs.Values.{tabulate, four_at, number_at, size_in, item_in, position_in, precedence_in, instance_in, packing_at};

use instance::{Instance, Packing, Position};
use parts::{Item, Precedence, Size};
use std::array;

// How many bytes an instance has, and a packing.
pub const INSTANCE_BYTES: usize = 365;

pub const PACKING_BYTES: usize = 70;

pub fn byte_at(s: &[u8], at: usize) -> u8
    ensures { result ≡ get_or s.now at 0 }
{
    s.get(at).copied().unwrap_or(0)
}

// N bytes.
fn bytes_at<const N: usize>(s: &[u8], at: usize) -> [u8; N]
    requires { at + N ≤ 2 ^ 64 }
    ensures { result ≡ tabulate N (λ i. byte_at s.now (at + i)) }
{
    array::from_fn(|i| byte_at(s, at + i))
}

// Two bytes.
#[tactic(auto, using(crate::proofs::Words::word_of_bytes))]
pub fn word_at(s: &[u8], at: usize) -> u16
    requires { at < 18446744073709551615 }
    ensures { result ≡ word_at s.now at }
{
    u16::from_le_bytes(bytes_at(s, at))
}

// Four bytes.
#[tactic(auto, using(crate::proofs::Words::four_of_bytes))]
pub fn four_at(s: &[u8], at: usize) -> usize
    requires { at < 2000 }
    ensures { (result ≡ four_at s.now at) × (result < 4294967296) }
{
    u32::from_le_bytes(bytes_at(s, at)) as usize
}

// Eight bytes: any number.
#[tactic(auto, using(crate::proofs::Words::number_of_bytes))]
pub fn number_at(s: &[u8], at: usize) -> usize
    requires { at < 1000 }
    ensures { result ≡ number_at s.now at }
{
    usize::from_le_bytes(bytes_at(s, at))
}

fn size_at(s: &[u8], at: usize) -> Size
    requires { at < 1000 }
    ensures { result ≡ size_in s.now at }
{
    Size {
        width: word_at(s, at),
        depth: word_at(s, at + 2),
        shifts: word_at(s, at + 4),
    }
}

// An item: its measures at one place, and at another a byte other than 0 where it may be turned.
fn item_at(s: &[u8], at: usize, turn: usize) -> Item
    requires { at < 1000 }
    ensures { result ≡ item_in s.now at turn }
{
    Item {
        size: size_at(s, at),
        may_turn: byte_at(s, turn) != 0,
    }
}

fn position_at(s: &[u8], at: usize) -> Position
    requires { at < 1000 }
    ensures { result ≡ position_in s.now at }
{
    Position {
        x: word_at(s, at),
        y: word_at(s, at + 2),
        t: word_at(s, at + 4),
    }
}

fn precedence_at(s: &[u8], at: usize) -> Precedence
    requires { at < 1000 }
    ensures { result ≡ precedence_in s.now at }
{
    Precedence {
        predecessor: byte_at(s, at),
        successor: byte_at(s, at + 1),
        lag: byte_at(s, at + 2),
    }
}

// The instance at the start of the bytes.
pub fn instance_in(s: &[u8]) -> Instance
    ensures { result ≡ instance_in s.now }
{
    Instance {
        container: size_at(s, 0),
        items: array::from_fn(|i| item_at(s, 14 + 6 * i, 355 + i)),
        item_count: number_at(s, 6),
        precedences: array::from_fn(|i| precedence_at(s, 82 + 3 * i)),
        precedence_count: number_at(s, 74),
        yard_number: word_at(s, 352),
        walkway: byte_at(s, 354),
    }
}

// The packing that starts at a place.
pub fn packing_at(s: &[u8], at: usize) -> Packing
    requires { at < 500 }
    ensures { result ≡ packing_at s.now at }
{
    Packing {
        positions: array::from_fn(|u| position_at(s, at + 6 * u)),
        marks: bytes_at(s, at + 60),
    }
}
