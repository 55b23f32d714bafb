// An instance's measures beside the totals of chains.
ghost use Rattle.std.specs.Prelude.{◌≡◌, true, map, ◌+◌, ◌≤◌, ◌<◌, get_or, length, replicate};
ghost use Rattle.parts.specs.Precedences.{arc_of, all_allowed};
ghost use Rattle.parts.specs.Sizes.{max_measure};
ghost use Rattle.instance.specs.Meaning.{problem_of};
ghost use Rattle.model.specs.Wide.{wide};
ghost use Rattle.opening.specs.Layout.{with_walkway, put, put_item, max_spaced, Measures, LaidOut, LargeIf};
ghost use Rattle.opening.specs.Layout.{RowStepped, Stepped, put_lag, LagsLaid, FitsIf};

use chains::totals::{CAPACITY, GAPPED, NUMBERS, SIZES, STARTS, STEPS, Totals};
use domains::ROWS;
use domains::store::Conflict;
use instance::valid::ValidInstance;
use parts::{Precedence, Size};

// Measures with the walkway behind them, on x and y.
fn with_walkway(size: Size, walkway: u8) -> Size
    requires { (size.width ≤ max_measure) × (size.depth ≤ max_measure) }
    ensures { (result ≡ with_walkway walkway size) × (walkway ≤ 255) }
{
    Size {
        width: size.width + u16::from(walkway),
        depth: size.depth + u16::from(walkway),
        shifts: size.shifts,
    }
}

// A measure at its place, and as the totals of the item alone.
fn put_size(t: &mut [u16; NUMBERS], i: usize, size: u16)
    requires { i < 30 }
    ensures { t.new ≡ put t.old i size }
{
    t[i] = size;
    t[STARTS + i] = size;
    t[SIZES + i] = size;
}

// The measures of an item.
fn put_item(t: &mut [u16; NUMBERS], u: usize, size: Size)
    requires { u < 10 }
    ensures { t.new ≡ put_item t.old u size }
{
    put_size(t, u, size.width);
    put_size(t, 10 + u, size.depth);
    put_size(t, 20 + u, size.shifts);
}

// The measures of an instance with its walkway, 0 past its items, with chains of one item each. The container is longer by one walkway: the one
// behind the last item.
fn put_items(t: &mut [u16; NUMBERS], valid: ValidInstance)
    requires { t.old ≡ replicate 696 0 }
    ensures { LaidOut (wide (problem_of valid.instance)) t.new × Measures t.new }
{
    let instance = valid.instance;
    let walkway = instance.walkway;
    let capacity = with_walkway(instance.container, walkway);
    t[CAPACITY] = capacity.width;
    t[CAPACITY + 1] = capacity.depth;
    t[CAPACITY + 2] = capacity.shifts;
    for u in 0..instance.item_count {
        put_item(t, u, with_walkway(instance.items[u].size, walkway));
    }
}

// Whether an item is above the container's measure.
fn any_large(t: &[u16; NUMBERS]) -> bool
    ensures { LargeIf t.now result }
{
    for i in 0..ROWS {
        if t[CAPACITY + i / 10] < t[SIZES + i] {
            return true;
        }
    }
    false
}

// A row of steps is the measures on an axis.
fn put_row(t: &mut [u16; NUMBERS], i: usize, a: usize)
    requires { (i < 60) × (a < 3) }
    ensures { RowStepped i a t.old t.new }
{
    let sizes = SIZES + a * 10;
    t.copy_within(sizes..sizes + 10, STEPS + i * 10);
}

// All sixty rows: of each direction, axis and item.
fn put_steps(t: &mut [u16; NUMBERS])
    ensures { Stepped 60 t.old t.new }
{
    for i in 0..60 {
        put_row(t, i, i % 30 / 10);
    }
}

// The lag of two items on t, from either end, where it is the greatest of theirs so far.
fn put_lag(t: &mut [u16; NUMBERS], u: usize, v: usize, lag: u8)
    requires { (u < 10) × (v < 10) × (get_or t.old (80 + u) 0 ≤ max_spaced) × (get_or t.old (80 + v) 0 ≤ max_spaced) }
    ensures { (t.new ≡ put_lag t.old u v lag) × (lag ≤ 255) }
{
    let ends = STEPS + (20 + u) * 10 + v;
    let onto = t[SIZES + 20 + v] + u16::from(lag);
    let back = t[SIZES + 20 + u] + u16::from(lag);
    if t[ends] < onto {
        t[ends] = onto;
        t[STEPS + (50 + v) * 10 + u] = back;
        t[GAPPED + 2] = 1;
    }
}

// The lags of precedences, where no lag was put yet.
fn put_lags(t: &mut [u16; NUMBERS], precedences: &[Precedence])
    requires allowed { all_allowed 10 None (map arc_of precedences.now) ≡ true }
    requires measures { Measures t.old }
    ensures { LagsLaid precedences.now t.old t.new }
{
    for o in precedences {
        let u = usize::from(o.predecessor);
        let v = usize::from(o.successor);
        put_lag(t, u, v, o.lag);
    }
}

// An instance laid out: its measures, walkway included, with the steps of its chains; or that an item is above the container's measure.
pub fn lay_out(valid: ValidInstance) -> Result<Totals, Conflict>
    ensures { FitsIf (problem_of valid.instance) result }
{
    let mut numbers = [0; NUMBERS];
    put_items(&mut numbers, valid);
    if any_large(&numbers) {
        return Err(Conflict);
    }
    put_steps(&mut numbers);
    let instance = &valid.instance;
    put_lags(
        &mut numbers,
        &instance.precedences[..instance.precedence_count],
    );
    Ok(Totals { numbers })
}
