// The axes x, y and t, and starts, measures and ends on them.
ghost use Rattle.sheet.specs.Sheet.{max_items};
ghost use Rattle.std.specs.Prelude.{◌≡◌, ◌<◌, ◌+◌, leb};
ghost use Rattle.instance.specs.Meaning.{measure_on, start};
ghost use Rattle.packing.specs.Axes.{axis_number, NamesAxis};
ghost use Rattle.packing.specs.Parts.{placed_at, end_of, spacing_on, apart_on};

use instance::{Instance, Packing, Position};
use parts::Size;
use refusal::Refusal;

#[derive(Clone, Copy, Debug, PartialEq, Eq)]
pub enum Axis {
    X,
    Y,
    T,
}

// The axis of a number: x is 0, y is 1 and t is 2.
impl TryFrom<u8> for Axis {
    type Error = Refusal;

    ghost try_from_gives = { NamesAxis };

    fn try_from(number: u8) -> Result<Self, Refusal> {
        match number {
            0 => Ok(Axis::X),
            1 => Ok(Axis::Y),
            2 => Ok(Axis::T),
            _ => Err(Refusal::BadArgument),
        }
    }
}

impl Axis {
    pub const ALL: [Axis; 3] = [Axis::X, Axis::Y, Axis::T];

    pub fn measure_of(self, size: Size) -> u16
        ensures { result ≡ measure_on (axis_number self) size }
    {
        match self {
            Axis::X => size.width,
            Axis::Y => size.depth,
            Axis::T => size.shifts,
        }
    }

    pub fn start_of(self, position: Position) -> u16
        ensures { result ≡ start (axis_number self) position }
    {
        match self {
            Axis::X => position.x,
            Axis::Y => position.y,
            Axis::T => position.t,
        }
    }

    // How far from each other items are that are apart on this axis: the walkway on x and y, nothing on t.
    pub fn spacing_of(self, walkway: u8) -> u8
        ensures { result ≡ spacing_on walkway (axis_number self) }
    {
        match self {
            Axis::X | Axis::Y => walkway,
            Axis::T => 0,
        }
    }
}

// An item where a packing puts it.
#[derive(Clone, Copy)]
pub struct Placed {
    pub size: Size,
    pub position: Position,
}

impl Placed {
    pub fn new(instance: &Instance, packing: &Packing, u: usize) -> Placed
        requires { u < max_items }
        ensures { result ≡ placed_at instance.now.items packing.now.positions u }
    {
        Placed {
            size: instance.items[u].size,
            position: packing.positions[u],
        }
    }

    pub fn start(self, axis: Axis) -> u16
        ensures { result ≡ start (axis_number axis) self.position }
    {
        axis.start_of(self.position)
    }

    // Start plus measure, which may be above what a u16 holds.
    pub fn end(self, axis: Axis) -> u32
        ensures { (result ≡ end_of (axis_number axis) self) × (result < 131072) }
    {
        u32::from(self.start(axis)) + u32::from(axis.measure_of(self.size))
    }

    // It ends at least `gap` before the other's start.
    pub fn ends_ahead(self, other: Placed, axis: Axis, gap: u8) -> bool
        ensures { result ≡ leb (end_of (axis_number axis) self + gap) (start (axis_number axis) other.position) }
    {
        self.end(axis) + u32::from(gap) <= u32::from(other.start(axis))
    }

    // One of the two ends before the other's start on the axis: on x and y by the walkway.
    pub fn is_apart_from(self, other: Placed, axis: Axis, walkway: u8) -> bool
        ensures { result ≡ apart_on walkway (axis_number axis) self other }
    {
        let space = axis.spacing_of(walkway);
        self.ends_ahead(other, axis, space) || other.ends_ahead(self, axis, space)
    }
}
