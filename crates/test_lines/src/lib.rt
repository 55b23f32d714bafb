// What the tests print. A function that only prints has no contract, and the gate compares its output.
#![tactic(auto)]

ghost use Rattle.std.specs.Prelude.{◌≡◌};
ghost use Rattle.test_lines.specs.Rest.{rest_zero};

use instance::{Instance, Packing};
use parts::{Item, Precedence, Size};
use refusal::Refusal;
use std::io;
use std::io::Write;

const NO_ITEM: Item = Item {
    size: Size {
        width: 0,
        depth: 0,
        shifts: 0,
    },
    may_turn: false,
};

const NO_PRECEDENCE: Precedence = Precedence {
    predecessor: 0,
    successor: 0,
    lag: 0,
};

// A space and the bytes, two hexadecimal digits each.
pub fn bytes<W: Write>(out: &mut W, s: &[u8]) -> io::Result<()> {
    write!(out, " ")?;
    for byte in s {
        write!(out, "{byte:02x}")?;
    }
    Ok(())
}

// The ten positions, each with its mark.
pub fn packing<W: Write>(out: &mut W, packing: Packing) -> io::Result<()> {
    for (position, mark) in packing.positions.iter().zip(packing.marks.iter()) {
        write!(out, " {} {} {} {mark}", position.x, position.y, position.t)?;
    }
    Ok(())
}

// A refusal without a line end.
pub fn refused<W: Write>(out: &mut W, refusal: Refusal) -> io::Result<()> {
    write!(out, "refused {} {}", refusal.number(), refusal.place())
}

fn measures<W: Write>(out: &mut W, size: Size) -> io::Result<()> {
    write!(out, " {} {} {}", size.width, size.depth, size.shifts)
}

// How many, their measures, and a word where one may be turned.
fn items<W: Write>(out: &mut W, instance: &Instance) -> io::Result<()> {
    write!(out, " items {}", instance.item_count)?;
    for item in instance.items.iter().take(instance.item_count) {
        measures(out, item.size)?;
        if item.may_turn {
            write!(out, " turn")?;
        }
    }
    Ok(())
}

// How many, the items of each, and its lag where that is above 0.
fn precedences<W: Write>(out: &mut W, instance: &Instance) -> io::Result<()> {
    write!(out, " precedences {}", instance.precedence_count)?;
    for precedence in instance.precedences.iter().take(instance.precedence_count) {
        write!(out, " {} {}", precedence.predecessor, precedence.successor)?;
        if precedence.lag != 0 {
            write!(out, " lag {}", precedence.lag)?;
        }
    }
    Ok(())
}

// Whether the entries past the counts are 0, and no item among them may be turned.
fn is_rest_zero(instance: &Instance) -> bool
    ensures { result ≡ rest_zero instance.now }
{
    let items = instance
        .items
        .iter()
        .skip(instance.item_count)
        .all(|item| *item == NO_ITEM);
    let precedences = instance
        .precedences
        .iter()
        .skip(instance.precedence_count)
        .all(|precedence| *precedence == NO_PRECEDENCE);
    items && precedences
}

// An instance, with a word on the entries past its counts; its walkway is printed where it is above 0.
pub fn read_instance<W: Write>(out: &mut W, instance: &Instance) -> io::Result<()> {
    write!(out, "read")?;
    measures(out, instance.container)?;
    items(out, instance)?;
    precedences(out, instance)?;
    write!(out, " yard {}", instance.yard_number)?;
    if instance.walkway != 0 {
        write!(out, " walkway {}", instance.walkway)?;
    }
    if is_rest_zero(instance) {
        write!(out, " rest zero")
    } else {
        write!(out, " rest not zero")
    }
}
