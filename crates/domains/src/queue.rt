// The queue of pairs that changed: place 0 has where it ends, the pairs stand from place 1 on. One array of numbers, and no struct of places: the definitions
// `queue_end`, `Queued` and `Grown`, of which the contracts of every removal speak, are of this list.
ghost use Rattle.std.specs.Prelude.{◌≡◌, ◌≤◌, ◌<◌};
ghost use Rattle.domains.specs.Queue as Q;
ghost use Rattle.domains.specs.Queue.{Coded, queue_end, pushed};

use crate::Place;

// Room for 135 domains of 7 each, none removed twice, and for the end.
pub const MAX_QUEUE: usize = 946;

// A pair on an axis as a number.
pub fn code(place: Place) -> u16
    ensures { result ≡ Q.pair_code place.axis place.u place.v }
{
    (place.axis * 256 + place.u * 16 + place.v) as u16
}

// The pair of a number.
pub fn place_of(code: u16) -> Place
    requires { Coded code }
    ensures { Q.pair_code result.axis result.u result.v ≡ code }
{
    let code = usize::from(code);
    Place {
        axis: code / 256,
        u: code / 16 % 16,
        v: code % 16,
    }
}

// A pair is put at the end.
pub fn push(queue: &mut [u16; MAX_QUEUE], place: Place)
    requires { (1 ≤ queue_end queue.old) × (queue_end queue.old < 946) }
    ensures { queue.new ≡ pushed queue.old (Q.pair_code place.axis place.u place.v) }
{
    let end = usize::from(queue[0]);
    queue[end] = code(place);
    queue[0] += 1;
}
