// Where the domain of two items on an axis stands, and removing relations from it.
ghost use Rattle.std.specs.Prelude.{◌≡◌, false, ◌<◌};
ghost use Rattle.model.specs.Domains as D;
ghost use Rattle.model.specs.Order.{Rising};

use crate::{DOMAINS, Place};
use pairs::pair_number;

// Where the domain of u < v stands.
pub fn index(a: usize, u: usize, v: usize) -> usize
    requires { Rising 10 a u v }
    ensures { (result ≡ D.index a u v) × (result < 135) }
{
    pair_number(u, v) * 3 + a
}

// A domain without one of its relations: a function for each, since the model has `remove_overlap` and `remove_before` one by one and the bits by name.
fn without_overlap(m: u8) -> u8
    ensures { result ≡ D.domain false (D.before_bit m) (D.after_bit m) }
{
    m / 2 % 2 * 2 + m / 4 % 2 * 4
}

fn without_before(m: u8) -> u8
    ensures { result ≡ D.domain (D.overlap_bit m) false (D.after_bit m) }
{
    m % 2 + m / 4 % 2 * 4
}

fn without_after(m: u8) -> u8
    ensures { result ≡ D.domain (D.overlap_bit m) (D.before_bit m) false }
{
    m % 2 + m / 2 % 2 * 2
}

// Removes "u and v overlap".
pub fn remove_overlap(k: &mut [u8; DOMAINS], place: Place)
    ensures { k.new ≡ D.remove_overlap k.old place.axis place.u place.v }
{
    let Place { axis, u, v } = place;
    let i = index(axis, u.min(v), u.max(v));
    k[i] = without_overlap(k[i]);
}

// Removes "u before v".
pub fn remove_before(k: &mut [u8; DOMAINS], place: Place)
    ensures { k.new ≡ D.remove_before k.old place.axis place.u place.v }
{
    let Place { axis, u, v } = place;
    let i = index(axis, u.min(v), u.max(v));
    k[i] = if u < v {
        without_before(k[i])
    } else {
        without_after(k[i])
    };
}
