// Signed differences of starts and ends.
ghost use Rattle.sheet.specs.Sheet.{max_items};
ghost use Rattle.std.specs.Prelude.{◌≡◌, ◌<◌, pos, ◌-ℤ◌};
ghost use Rattle.instance.specs.Meaning.{start, problem_of, positions_of};
ghost use Rattle.packing.specs.Axes.{axis_number};
ghost use Rattle.packing.specs.Parts.{end_of};
ghost use Rattle.packing.specs.Clearance.{clearance_between};

use crate::axes::{Axis, Placed};
use instance::{Instance, Packing};

// From an item's end to another's start, below 0 where the start comes first.
fn from_end(item: Placed, other: Placed, axis: Axis) -> i32
    ensures { result ≡ pos (start (axis_number axis) other.position) -ℤ pos (end_of (axis_number axis) item) }
{
    i32::from(other.start(axis)) - item.end(axis) as i32
}

pub fn clearance_on(instance: Instance, packing: Packing, u: usize, v: usize, axis: Axis) -> i32
    requires { (u < max_items) × (v < max_items) }
    ensures { result ≡ clearance_between (problem_of instance) (positions_of packing) (axis_number axis) u v }
{
    let first = Placed::new(&instance, &packing, u);
    let second = Placed::new(&instance, &packing, v);
    from_end(first, second, axis).max(from_end(second, first, axis))
}
