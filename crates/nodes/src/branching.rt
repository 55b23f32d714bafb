// Where the search branches, and what a branch removes.
ghost use Rattle.std.specs.Prelude.{◌≡◌, true, ◌<◌, ◌≤◌};
ghost use Rattle.model.specs.Domains.{may_overlap};
ghost use Rattle.model.specs.Order.{WellFormed};
ghost use Rattle.model.specs.FirstBranches.{Passed};
ghost use Rattle.domains.specs.Rows.{Laid};
ghost use Rattle.domains.specs.Queue.{Good};
ghost use Rattle.domains.specs.Narrowed.{RemovedOnly, One};
ghost use Rattle.nodes.specs.Choice.{separates, several, separated_at, Chosen, Branchable, Branched};

use domains::bits::has;
use domains::queue::MAX_QUEUE;
use domains::removal::remove_relation;
use domains::{DOMAINS, Place, ROWS};
use pairs::{pair_count, pair_of};

// The domains in which "before" is known, one way or the other: 0, 2 and 4, as a set of bits.
const SEPARATED: u32 = 21;

// "before" is known, one way or the other.
fn is_separated(domain: u8) -> bool
    requires { domain < 8 }
    ensures { result ≡ separates domain }
{
    has(SEPARATED, domain as usize)
}

// More than one relation is left.
fn is_undecided(domain: u8) -> bool
    requires { domain < 8 }
    ensures { result ≡ several domain }
{
    domain != 1 && !is_separated(domain)
}

// "before" is known on some axis of the pair with this number.
fn separated(domains: &[u8; DOMAINS], number: usize) -> bool
    requires { WellFormed domains.now × (number < 45) }
    ensures { result ≡ separated_at domains.now number }
{
    is_separated(domains[3 * number])
        || is_separated(domains[3 * number + 1])
        || is_separated(domains[3 * number + 2])
}

// The first pair in number order that has no known "before", and its first axis with more than one relation left, if there is such a pair; the
// pairs before number `from` are known to have one. "nested loops over pairs and axes, left by a label with the branching pair and axis".
pub fn choose(domains: &[u8; DOMAINS], n: usize, from: usize) -> Option<Place>
    requires { WellFormed domains.now × (n ≤ 10) }
    ensures { Passed domains.now from → Chosen domains.now n result }
{
    let mut place = None;
    'found: for number in from..pair_count(n) {
        if !separated(domains, number) {
            let pair = pair_of(number);
            for axis in 0..3 {
                if is_undecided(domains[3 * number + axis]) {
                    place = Some(Place {
                        axis,
                        u: pair.u,
                        v: pair.v,
                    });
                    break 'found;
                }
            }
            place = Some(Place {
                axis: 0,
                u: pair.u,
                v: pair.v,
            });
            break 'found;
        }
    }
    place
}

// Removes an order of a pair if it is left; that the two overlap is left, too.
fn remove_order(
    domains: &mut [u8; DOMAINS],
    rows: &mut [u32; ROWS],
    queue: &mut [u16; MAX_QUEUE],
    x: usize,
    place: Place,
)
    requires good { Good domains.old rows.old queue.old }
    requires order { (1 ≤ x) × (x < 3) }
    requires overlap { may_overlap domains.old place.axis place.u place.v ≡ true }
    ensures { RemovedOnly (One x place.axis place.u place.v) domains.old queue.old domains.new rows.new queue.new }
{
    if !has(rows[place.axis * 10 + place.u], x * 10 + place.v) {
        remove_relation(domains, rows, queue, x, place);
    }
}

// The first or the second branch at a place: what it removes is all that is on the queue. It takes arrays, and no `Store`: a queue of any content will do.
pub fn apply_branch(
    domains: &mut [u8; DOMAINS],
    rows: &mut [u32; ROWS],
    queue: &mut [u16; MAX_QUEUE],
    place: Place,
    second: bool,
)
    requires laid { Laid domains.old rows.old }
    requires branchable { Branchable domains.old place }
    ensures { Branched domains.old queue.old place second domains.new rows.new queue.new }
{
    let apart = has(rows[place.axis * 10 + place.u], place.v);
    queue[0] = 1;
    match (apart, second) {
        (true, true) => remove_relation(domains, rows, queue, 1, place),
        (true, false) => remove_relation(domains, rows, queue, 2, place),
        (false, true) => {
            remove_order(domains, rows, queue, 1, place);
            remove_order(domains, rows, queue, 2, place);
        }
        (false, false) => remove_relation(domains, rows, queue, 0, place),
    }
}
