// Rule 5: what the totals find too long is removed.
ghost use Rattle.std.specs.Prelude.{◌≡◌, false, not, ◌&&◌, ◌+◌, ◌-◌, ◌<◌, ◌≤◌, ◌^◌, eqb, ltb, get_or, length};
ghost use Rattle.model.specs.Toward.{Direction};
ghost use Rattle.domains.specs.Bits.{bit_at, Gives};
ghost use Rattle.domains.specs.Narrowed.{FilledWith, NarrowsIf, RemovesIf, Each};
ghost use Rattle.chains.specs.Totals.{gapped_at};
ghost use Rattle.chains.specs.Cuts.{above_both, Stepping, Comparable, CutAll, CutBoth, CutOf, CutAround};

use crate::totals::{CAPACITY, GAPPED, SIZES, STARTS, STEPS, Totals};
use domains::Line;
use domains::bits::{ITEMS, bit, emptied, members_of};
use domains::store::{Conflict, Store};

impl Totals {
    // Of the ten totals from a place on, those above a limit.
    fn above(&self, at: usize, limit: u16) -> u32
        requires { at + 10 ≤ 696 }
        ensures { Gives 10 result (λ v. ltb limit (get_or self.now.numbers (at + v) 0)) }
    {
        let mut found: u16 = 0;
        for v in 0..10 {
            if self.numbers[at + v] > limit {
                found |= 1 << v;
            }
        }
        u32::from(found)
    }

    // The same with what lies between: the steps from a place on, less the sizes from another.
    fn above_with_gaps(&self, at: usize, steps: usize, sizes: usize, limit: u16) -> u32
        requires { Stepping self.now.numbers at steps sizes }
        ensures { let t = self.now.numbers in Gives 10 result (λ v. ltb limit (get_or t (steps + v) 0 - get_or t (sizes + v) 0 + get_or t (at + v) 0)) }
    {
        let mut found: u16 = 0;
        for v in 0..10 {
            if self.numbers[steps + v] - self.numbers[sizes + v] + self.numbers[at + v] > limit {
                found |= 1 << v;
            }
        }
        u32::from(found)
    }

    // The items with which u is too long, by its total at `own` and theirs at `other`, where nothing lies between items: a method of its own, with
    // `above`, since following a link takes a tenth more instructions where both go by the one below.
    fn too_long_plain(&self, own: usize, other: usize, a: usize, u: usize) -> u32
        requires comparable { Comparable own other a u }
        requires a_value { gapped_at self.now.numbers a ≡ 0 }
        ensures { Gives 10 result (λ v. above_both self.now.numbers own other a u v && not (eqb v u)) }
    {
        let limit = self.numbers[CAPACITY + a] - self.numbers[own + a * 10 + u];
        self.above(other + a * 10, limit) & (bit(u) ^ ITEMS)
    }

    // The same where something does.
    fn too_long_with_gaps(&self, own: usize, other: usize, a: usize, u: usize) -> u32
        requires { Comparable own other a u }
        ensures { Gives 10 result (λ v. above_both self.now.numbers own other a u v && not (eqb v u)) }
    {
        let from = own + a * 10 + u;
        let limit = self.numbers[CAPACITY + a] - self.numbers[from];
        self.above_with_gaps(other + a * 10, STEPS + from * 10, SIZES + a * 10, limit)
            & (bit(u) ^ ITEMS)
    }

    // The same, where something lies between items if GAPS.
    fn too_long_of<const GAPS: bool>(&self, own: usize, other: usize, a: usize, u: usize) -> u32
        requires comparable { Comparable own other a u }
        requires gaps { GAPS ≡ false → gapped_at self.now.numbers a ≡ 0 }
        ensures { Gives 10 result (λ v. above_both self.now.numbers own other a u v && not (eqb v u)) }
    {
        if GAPS {
            self.too_long_with_gaps(own, other, a, u)
        } else {
            self.too_long_plain(own, other, a, u)
        }
    }

    // The same, whether something does or not.
    pub fn too_long(&self, own: usize, other: usize, a: usize, u: usize) -> u32
        requires { Comparable own other a u }
        ensures { Gives 10 result (λ v. above_both self.now.numbers own other a u v && not (eqb v u)) }
    {
        if self.numbers[GAPPED + a] == 0 {
            self.too_long_plain(own, other, a, u)
        } else {
            self.too_long_with_gaps(own, other, a, u)
        }
    }
}

// An order of u, 1 or 2, is removed with the items of a set, with which it is left.
fn cut_item(store: &mut Store, x: usize, line: Line, items: u32) -> Result<(), Conflict>
    requires { Direction x × (line.axis < 3) × (line.item < 10) × (items < 2 ^ 10) × (bit_at items line.item ≡ false) }
    ensures { RemovesIf (Each x line.axis line.item items) store.old store.new result }
{
    let row = store.row(line.axis, line.item);
    let left = items & (row >> (x * 10) as u32 ^ ITEMS);
    if left == 0 {
        return Ok(());
    }
    if emptied(row | left << (x * 10) as u32) != 0 {
        return Err(Conflict);
    }
    store.remove_items(x, line, left);
    Ok(())
}

// For items whose chains have grown, those ending in them where X is 1 and those starting in them where it is 2: the relation X, "u before v" or
// "v before u", is removed where they are too long. X is a constant, since over a variable a search takes a tenth more instructions.
fn cut<const X: usize, const GAPS: bool>(
    store: &mut Store,
    totals: &Totals,
    a: usize,
    grown: u32,
) -> Result<(), Conflict>
    requires good { (a < 3) × (grown < 2 ^ 10) }
    requires direction { Direction X }
    requires gaps { GAPS ≡ false → gapped_at totals.now.numbers a ≡ 0 }
    ensures { NarrowsIf (FilledWith (CutAll totals.now.numbers X a)) (CutOf totals.now.numbers X a grown) store.old store.new result }
{
    let own = STARTS * (X - 1);
    for u in members_of(grown) {
        let line = Line { axis: a, item: u };
        let items = totals.too_long_of::<GAPS>(own, STARTS - own, a, u);
        cut_item(store, X, line, items)?;
    }
    Ok(())
}

// The items of an axis whose chains have grown: those ending in them, and those starting in them.
#[derive(Clone, Copy)]
pub struct Grown {
    pub axis: usize,
    pub ends: u32,
    pub starts: u32,
}

// All that is too long with items whose chains have grown.
pub fn cut_around(store: &mut Store, totals: &Totals, grown: Grown) -> Result<(), Conflict>
    requires { (grown.axis < 3) × (grown.ends < 2 ^ 10) × (grown.starts < 2 ^ 10) }
    ensures { let a = grown.axis in
        NarrowsIf (FilledWith (CutBoth totals.now.numbers a)) (CutAround totals.now.numbers a grown.ends grown.starts) store.old store.new result }
{
    let a = grown.axis;
    if totals.numbers[GAPPED + a] == 0 {
        cut::<1, false>(store, totals, a, grown.ends)?;
        return cut::<2, false>(store, totals, a, grown.starts);
    }
    cut::<1, true>(store, totals, a, grown.ends)?;
    cut::<2, true>(store, totals, a, grown.starts)
}
