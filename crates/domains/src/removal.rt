// Removing relations, from domains and rows alike. A removal that would leave nothing of a pair is a conflict.
ghost use Rattle.std.specs.Prelude.{◌≡◌, ◌<◌};
ghost use Rattle.model.specs.Relations as R;
ghost use Rattle.domains.specs.Queue.{Good};
ghost use Rattle.domains.specs.Narrowed.{RemovedOnly, Removes, RemovesIf, One, Spare, Each, Spares, All, Askable, Left};

use crate::access::{remove_before, remove_overlap};
use crate::bits::{ITEMS, ROW, bit, emptied, members_of};
use crate::queue::{MAX_QUEUE, push};
use crate::store::{Conflict, Store};
use crate::{DOMAINS, Line, Place, ROWS};

// The same relation seen from the other item. Relations are numbers, 0 overlap, 1 before, 2 after: each is the place x * 10 + v of a bit in a row, and an enum
// would be turned to that number wherever it is used.
fn converse(x: usize) -> usize
    requires { x < 3 }
    ensures { result ≡ R.converse x }
{
    if x == 0 { 0 } else { 3 - x }
}

// Removes a relation from its domain.
fn remove_from(k: &mut [u8; DOMAINS], x: usize, place: Place)
    requires { x < 3 }
    ensures { k.new ≡ R.without k.old x place.axis place.u place.v }
{
    match x {
        0 => remove_overlap(k, place),
        1 => remove_before(k, place),
        _ => remove_before(k, place.turned()),
    }
}

// Removes a relation, from its domain and from both rows; the pair goes on the queue. Over the arrays of a `Store`, for callers that have them alone.
pub fn remove_relation(
    domains: &mut [u8; DOMAINS],
    rows: &mut [u32; ROWS],
    queue: &mut [u16; MAX_QUEUE],
    x: usize,
    place: Place,
)
    requires good { Good domains.old rows.old queue.old }
    requires spare { (x < 3) × Spare domains.old x place.axis place.u place.v }
    ensures { RemovedOnly (One x place.axis place.u place.v) domains.old queue.old domains.new rows.new queue.new }
{
    let Place { axis: a, u, v } = place;
    remove_from(domains, x, place);
    rows[a * 10 + u] |= bit(x * 10 + v);
    rows[a * 10 + v] |= bit(converse(x) * 10 + u);
    push(queue, place);
}

impl Store {
    // The same of a store.
    fn remove_one(&mut self, x: usize, place: Place)
        requires { (x < 3) × Spare self.old.domains x place.axis place.u place.v }
        ensures { Removes (One x place.axis place.u place.v) self.old self.new }
    {
        remove_relation(&mut self.domains, &mut self.rows, &mut self.queue, x, place);
    }

    // Removes a relation of an item with each of a set.
    pub fn remove_items(&mut self, x: usize, line: Line, items: u32)
        requires { (x < 3) × (line.axis < 3) × (line.item < 10) × Spares self.old.domains x line.axis line.item items }
        ensures { Removes (Each x line.axis line.item items) self.old self.new }
    {
        for v in members_of(items) {
            let place = Place {
                axis: line.axis,
                u: line.item,
                v,
            };
            self.remove_one(x, place);
        }
    }

    // Removes what stands in a set, as in the row of u, all of it left.
    // Not inlined: within `remove` it would keep that from being inlined where it is called, at a tenth more instructions a step.
    #[inline(never)]
    pub fn remove_each(&mut self, a: usize, u: usize, set: u32) -> Result<(), Conflict>
        requires { Askable a u set × Left self.old.domains a u set }
        ensures { RemovesIf (All a u set) self.old self.new result }
    {
        if emptied(self.rows[a * 10 + u] | set) != 0 {
            return Err(Conflict);
        }
        let line = Line { axis: a, item: u };
        self.remove_items(0, line, set & ITEMS);
        self.remove_items(1, line, set >> 10 & ITEMS);
        self.remove_items(2, line, set >> 20 & ITEMS);
        Ok(())
    }

    // Removes what is left of a set, as in the row of u.
    pub fn remove(&mut self, a: usize, u: usize, set: u32) -> Result<(), Conflict>
        requires { Askable a u set }
        ensures { RemovesIf (All a u set) self.old self.new result }
    {
        let left = set & (self.rows[a * 10 + u] ^ ROW);
        if left == 0 {
            return Ok(());
        }
        self.remove_each(a, u, left)
    }
}
