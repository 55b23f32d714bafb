// Where the items of packed domains start.
ghost use Rattle.std.specs.Prelude.{◌≡◌, ◌<◌, ◌≤◌};
ghost use Rattle.chains.specs.Totals.{table, measure_at};
ghost use Rattle.nodes.specs.Starts as T;
ghost use Rattle.nodes.specs.Starts.{Startable, Started};

use chains::totals::{NUMBERS, SIZES};
use instance::{Instance, Position};

// Where an item starts on an axis: the greatest chain ending in it, less its own measure.
fn start_at(t: &[u16; NUMBERS], a: usize, u: usize) -> u16
    requires { (a < 3) × (u < 10) × (measure_at t.now a u ≤ table t.now 2 a u) }
    ensures { result ≡ T.start_at t.now a u }
{
    t[a * 10 + u] - t[SIZES + a * 10 + u]
}

// "On each axis a piece starts at the total of the greatest chain ending in it, less its own measure".
pub fn starts_of(t: &[u16; NUMBERS], n: usize) -> [Position; Instance::MAX_ITEMS]
    requires { Startable n t.now }
    ensures { Started n t.now result }
{
    let mut positions = [Position { x: 0, y: 0, t: 0 }; Instance::MAX_ITEMS];
    for u in 0..n {
        positions[u] = Position {
            x: start_at(t, 0, u),
            y: start_at(t, 1, u),
            t: start_at(t, 2, u),
        };
    }
    positions
}
