// The totals of greatest chains, beside the measures they are made of: at axis * 10 + item the total of the chains ending in the item, from
// STARTS on that of those starting in it, from SIZES on the item's measure; at CAPACITY + axis the container's. At GAPPED + axis is 0 where nothing
// lies between any two items; from STEPS + 10 * i on, for the total at i, what its chain grows by where it goes on with each item.
ghost use Rattle.std.specs.Prelude.{◌≡◌, false, ◌&&◌, ◌≢◌, ◌+◌, ◌*◌, ◌<◌, ◌^◌};
ghost use Rattle.model.specs.Toward.{Direction};
ghost use Rattle.domains.specs.Bits.{bit_at, Gives};
ghost use Rattle.chains.specs.Totals.{Tabled};
ghost use Rattle.chains.specs.Links.{Linkable, RaisesIf, Only, From, InRows, On, Plain};

use domains::bits::{ITEMS, bit, lowest, members_of, rest};
use domains::store::Conflict;
use domains::{Place, ROWS};

pub const STARTS: usize = 30;

pub const SIZES: usize = 60;

pub const CAPACITY: usize = 90;

pub const GAPPED: usize = 93;

pub const STEPS: usize = 96;

// How many numbers these are in all.
pub const NUMBERS: usize = 696;

// No total is above the container, and every two numbers add up to one of 16 bits.
#[derive(Clone, Copy)]
pub struct Totals {
    pub numbers: [u16; NUMBERS],
    ghost tabled: { Tabled numbers },
}

// The items to which the row of an item has links in the direction x: 1 to those before it, 2 to those after it.
fn linked(row: u32, x: usize) -> u32
    requires { Direction x }
    ensures { Gives 10 result (λ z. bit_at row z && bit_at row (x * 10 + z)) }
{
    row & row >> (x * 10) as u32 & ITEMS
}

impl Totals {
    // The chains of an item go on from those of v, in the table at `own`: the set of z where its total grows, a conflict where that is above the container.
    fn link(&mut self, own: usize, a: usize, v: usize, z: usize) -> Result<u32, Conflict>
        requires { Linkable own a × (v < 10) × (z < 10) × (v ≢ z) }
        ensures { RaisesIf (Only v z) (λ _. Only v z) own a self.old.numbers self.new.numbers result }
    {
        let row = own + a * 10;
        let total = self.numbers[row + v] + self.numbers[STEPS + (row + v) * 10 + z];
        if total > self.numbers[CAPACITY + a] {
            return Err(Conflict);
        }
        if total <= self.numbers[row + z] {
            return Ok(0);
        }
        self.numbers[row + z] = total;
        Ok(bit(z))
    }

    // The same of each item of a set.
    fn link_each(&mut self, own: usize, a: usize, v: usize, items: u32) -> Result<u32, Conflict>
        requires { Linkable own a × (v < 10) × (items < 2 ^ 10) × (bit_at items v ≡ false) }
        ensures { RaisesIf (From v items) (λ _. From v items) own a self.old.numbers self.new.numbers result }
    {
        let mut grown = 0;
        for z in members_of(items) {
            grown |= self.link(own, a, v, z)?;
        }
        Ok(grown)
    }

    // The link from u to v in the direction x: the total of v in the table at `own`, and those of all that go on from there.
    pub fn link_on(
        &mut self,
        rows: &[u32; ROWS],
        own: usize,
        x: usize,
        place: Place,
    ) -> Result<u32, Conflict>
        requires { Plain rows.now × Linkable own place.axis × Direction x × InRows rows.now x place.axis place.u place.v }
        ensures { let links = InRows rows.now x place.axis in
            RaisesIf links (On links place.u place.v) own place.axis self.old.numbers self.new.numbers result }
    {
        let a = place.axis;
        let mut grown = self.link(own, a, place.u, place.v)?;
        let mut todo = grown;
        while todo != 0 {
            let w = lowest(todo);
            todo = rest(todo);
            let more = self.link_each(own, a, w, linked(rows[a * 10 + w], x))?;
            todo |= more;
            grown |= more;
        }
        Ok(grown)
    }
}
