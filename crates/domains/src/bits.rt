// Rows of bits. The row of an item u on an axis has bit 10 * x + v where the relation x of u and v is removed: 0 is overlap, 1 "u before v",
// 2 "v before u". A set of items is the bits below 10.
ghost use Rattle.std.specs.Prelude.{◌≡◌, ◌&&◌, ◌≢◌, ◌+◌, ◌<◌, ◌^◌};
ghost use Rattle.std.specs.Iterator.{at_most};
ghost use Rattle.domains.specs.Bits.{bit_at, Gives, lowest_bit, Lowest, TakenOut, NextBit};

// All bits of a row, of a set of items, and of each order.
pub const ROW: u32 = 1073741823;

pub const ITEMS: u32 = 1023;

pub const BEFORE: u32 = 1047552;

pub const AFTER: u32 = 1072693248;

// The bit at a place alone.
pub fn bit(i: usize) -> u32
    requires { i < 30 }
    ensures { (result ≡ 2 ^ i) × (result < 2 ^ 30) }
{
    1 << i as u32
}

// Whether the bit at a place is set.
#[tactic(auto, unfolding(crate::specs::Bits::bit_at))]
pub fn has(row: u32, i: usize) -> bool
    requires { i < 30 }
    ensures { result ≡ bit_at row i }
{
    (row >> i as u32) % 2 == 1
}

// The place of the lowest bit.
pub fn lowest(row: u32) -> usize
    requires { (row < 2 ^ 30) × (row ≢ 0) }
    ensures { Lowest row result }
{
    row.trailing_zeros() as usize
}

// All but the lowest bit.
pub fn rest(row: u32) -> u32
    requires { (row < 2 ^ 30) × (row ≢ 0) }
    ensures { TakenOut row (lowest_bit row) result }
{
    row & (row - 1)
}

// The items known to overlap.
pub fn overlapping(row: u32) -> u32
    requires { row < 2 ^ 30 }
    ensures { Gives 10 result (λ v. bit_at row (10 + v) && bit_at row (20 + v)) }
{
    row >> 10 & row >> 20
}

// The items known to come after.
pub fn following(row: u32) -> u32
    requires { row < 2 ^ 30 }
    ensures { Gives 10 result (λ v. bit_at row v && bit_at row (20 + v)) }
{
    row & row >> 20
}

// The items known to come before.
pub fn leading(row: u32) -> u32
    requires { row < 2 ^ 30 }
    ensures { Gives 10 result (λ v. bit_at row v && bit_at row (10 + v)) }
{
    row & row >> 10 & ITEMS
}

// The items with which nothing is left.
pub fn emptied(row: u32) -> u32
    requires { row < 2 ^ 30 }
    ensures { Gives 10 result (λ v. bit_at row v && (bit_at row (10 + v) && bit_at row (20 + v))) }
{
    row & row >> 10 & row >> 20
}

// The members of a set of items, from the lowest on.
#[derive(Clone, Copy)]
pub struct Members {
    pub left: u32,
    ghost small: { left < 2 ^ 30 },
}

pub fn members_of(set: u32) -> Members
    requires { set < 2 ^ 30 }
    ensures { result.left ≡ set }
{
    Members { left: set }
}

impl Iterator for Members {
    type Item = usize;

    ghost next_gives = { λ s r t. NextBit s.left r t.left };

    ghost remaining = { λ s. at_most s.left };

    fn next(&mut self) -> Option<usize> {
        if self.left == 0 {
            return None;
        }
        let i = lowest(self.left);
        self.left = rest(self.left);
        Some(i)
    }
}
