// The array of 135 domains beside rows of bits, removing relations from both, and the queue of pairs that changed.
#![tactic(auto)]

ghost use Rattle.model.specs.Order.{Proper};

pub mod access;
pub mod bits;
pub mod queue;
pub mod removal;
pub mod store;

// One domain for each of 45 pairs of items on each of three axes.
pub const DOMAINS: usize = 135;

// One row for each of ten items on each of three axes.
pub const ROWS: usize = 30;

// A pair of items on an axis, in either order. Axes are numbers here and below: rows and domains are found by counting with them (axis * 10 + item, pair * 3 +
// axis), and the definitions that contracts speak of (model `Slot`, `choice`, domains `pair_code`) count them so too.
#[derive(Clone, Copy)]
pub struct Place {
    pub axis: usize,
    pub u: usize,
    pub v: usize,
    ghost proper: { Proper 10 axis u v },
}

impl Place {
    ghost use Rattle.std.specs.Prelude.{◌≡◌};

    // The same pair from its other item.
    pub fn turned(self) -> Self
        ensures { (result.axis ≡ self.axis) × (result.u ≡ self.v) × (result.v ≡ self.u) }
    {
        Place {
            axis: self.axis,
            u: self.v,
            v: self.u,
        }
    }
}

// An item on an axis.
#[derive(Clone, Copy)]
pub struct Line {
    pub axis: usize,
    pub item: usize,
}
