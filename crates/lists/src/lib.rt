// Lists of parts as a sheet holds them: arrays of which the first entries count. How they are read, and when they are valid.
#![tactic(auto)]

ghost use Rattle.std.specs.Prelude.{◌≡◌, map, replicate};
ghost use Rattle.parts.specs.Precedences.{arc_of, all_allowed};
ghost use Rattle.parts.specs.Sizes.{no_item, no_precedence, all_in_range};
ghost use Rattle.sheet.specs.Sheet.{max_items, max_precedences};
ghost use Rattle.lists.specs.Lists.{with_lags, Padded};

use parts::{Item, Precedence, Size};

pub mod read;

// "10 pieces, 90 orders .. are limits belonging to the sheet": `Instance` has them as its own.
pub const MAX_ITEMS: usize = 10;

pub const MAX_PRECEDENCES: usize = 90;

// The items of a sheet: the first `count` entries, and blanks past them.
#[derive(Clone, Copy)]
pub struct Items {
    pub items: [Item; MAX_ITEMS],
    pub count: usize,
    ghost padded: { Padded max_items no_item count items },
}

// The same of precedences.
#[derive(Clone, Copy)]
pub struct Precedences {
    pub precedences: [Precedence; MAX_PRECEDENCES],
    pub count: usize,
    ghost padded: { Padded max_precedences no_precedence count precedences },
}

pub fn no_items() -> [Item; MAX_ITEMS]
    ensures { result ≡ replicate max_items no_item }
{
    let size = Size {
        width: 0,
        depth: 0,
        shifts: 0,
    };
    let item = Item {
        size,
        may_turn: false,
    };
    [item; MAX_ITEMS]
}

pub fn no_precedences() -> [Precedence; MAX_PRECEDENCES]
    ensures { result ≡ replicate max_precedences no_precedence }
{
    let none = Precedence {
        predecessor: 0,
        successor: 0,
        lag: 0,
    };
    [none; MAX_PRECEDENCES]
}

// Each precedence with the lag of its place.
pub fn with_lags(
    precedences: [Precedence; MAX_PRECEDENCES],
    lags: [u8; MAX_PRECEDENCES],
) -> [Precedence; MAX_PRECEDENCES]
    ensures { result ≡ with_lags (map arc_of precedences) lags }
{
    let mut lagged = precedences;
    for i in 0..MAX_PRECEDENCES {
        lagged[i].lag = lags[i];
    }
    lagged
}

// The items have measures from 1 to the greatest.
pub fn all_in_range(items: &[Item]) -> bool
    ensures { result ≡ all_in_range items.now }
{
    items
        .iter()
        .all(|item| parts::valid::size_in_range(item.size))
}

#[tactic(auto, using(crate::proofs::Valid::in_order))]
// The precedences name two of n items each and rise.
pub fn all_in_order(precedences: &[Precedence], n: usize) -> bool
    ensures { result ≡ all_allowed n None (map arc_of precedences.now) }
{
    let mut last = None;
    for o in precedences {
        if !parts::valid::both_items(*o, n) || !parts::valid::is_rising(last, *o) {
            return false;
        }
        last = Some(*o);
    }
    true
}
