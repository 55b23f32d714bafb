// Snapshots of branching points.
ghost use Rattle.std.specs.Prelude.{◌≡◌, ◌++◌, take, drop, replicate};
ghost use Rattle.domains.specs.Rows.{Laid};
ghost use Rattle.domains.specs.Queue.{no_changes, pair_code};
ghost use Rattle.chains.specs.Totals.{Tabled};

use chains::totals::{NUMBERS, SIZES, Totals};
use domains::queue::code;
use domains::store::Store;
use domains::{DOMAINS, Place, ROWS};

// A pair takes the first branch at most twice, and there are 45 pairs.
pub const MAX_LEVELS: usize = 90;

// What is kept of a branching point at which the first branch is taken: its domains, rows and totals, and the number of the place to branch at.
#[derive(Clone, Copy)]
pub struct Snapshot {
    pub domains: [u8; DOMAINS],
    pub rows: [u32; ROWS],
    pub totals: [u16; SIZES],
    pub code: u16,
}

// Totals alone are put back: the measures behind them stay.
fn put_back(numbers: &mut [u16; NUMBERS], kept: &[u16; SIZES])
    ensures { numbers.new ≡ kept.now ++ drop 60 numbers.old }
{
    numbers[..SIZES].copy_from_slice(kept);
}

impl Snapshot {
    // Of no branching point.
    pub fn blank() -> Self
        ensures domains { result.domains ≡ replicate 135 0 }
        ensures rows { result.rows ≡ replicate 30 0 }
        ensures totals { result.totals ≡ replicate 60 0 }
        ensures code { result.code ≡ 0 }
    {
        Snapshot {
            domains: [0; DOMAINS],
            rows: [0; ROWS],
            totals: [0; SIZES],
            code: 0,
        }
    }

    pub fn save(&mut self, store: &Store, totals: &Totals, place: Place)
        ensures domains { self.new.domains ≡ store.now.domains }
        ensures rows { self.new.rows ≡ store.now.rows }
        ensures totals { self.new.totals ≡ take 60 totals.now.numbers }
        ensures code { self.new.code ≡ pair_code place.axis place.u place.v }
    {
        self.domains = store.domains;
        self.rows = store.rows;
        self.totals.copy_from_slice(&totals.numbers[..SIZES]);
        self.code = code(place);
    }

    pub fn load(&self, store: &mut Store, totals: &mut Totals)
        requires laid { Laid self.now.domains self.now.rows }
        requires tabled { Tabled (self.now.totals ++ drop 60 totals.old.numbers) }
        ensures domains { store.new.domains ≡ self.now.domains }
        ensures rows { store.new.rows ≡ self.now.rows }
        ensures queue { store.new.queue ≡ no_changes store.old.queue }
        ensures totals { totals.new.numbers ≡ self.now.totals ++ drop 60 totals.old.numbers }
    {
        store.restore(&self.domains, &self.rows);
        put_back(&mut totals.numbers, &self.totals);
    }
}
