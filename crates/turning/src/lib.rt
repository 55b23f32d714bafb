// Items that may be turned: the choices of an instance, the marks of a choice, and an instance with its marked items turned.
//
// A mark is a byte and not a truth value: a plan comes from C as bytes, and a mark above 1 is refusal 13 of `packing::check` and `packing::clearance`.
// Whoever counts up to ten items may ask, and no valid instance is asked for: docs/READING.md names these functions, and they may ask no more than that.
#![tactic(auto)]

ghost use Rattle.std.specs.Prelude.{◌≡◌, ◌≤◌, ◌<◌};
ghost use Rattle.sheet.specs.Sheet.{max_items};
ghost use Rattle.model.specs.Turning.{last_choice};
ghost use Rattle.turning.specs.Turned.{turnable_of, choice_marks, is_turned, turned_item, turned_instance, mark_allowed, marks_allowed};

use instance::Instance;
use parts::{Item, Size};
use std::array;

// The last choice: there are twice as many for each item that may turn.
pub fn last_choice(instance: Instance) -> u16
    requires { instance.item_count ≤ max_items }
    ensures { (result ≡ last_choice (turnable_of instance)) × (result < 1024) }
{
    let mut count = 1;
    for item in &instance.items[..instance.item_count] {
        if item.may_turn {
            count *= 2;
        }
    }
    count - 1
}

// The marks of a choice: "the lowest-numbered turnable piece being the lowest binary digit, 1 for turned".
pub fn marks_of(instance: Instance, choice: u16) -> [u8; Instance::MAX_ITEMS]
    requires { instance.item_count ≤ max_items }
    ensures { result ≡ choice_marks (turnable_of instance) choice }
{
    let mut marks = [0; Instance::MAX_ITEMS];
    let mut left = choice;
    for (u, item) in instance.items[..instance.item_count].iter().enumerate() {
        if item.may_turn {
            marks[u] = (left % 2) as u8;
            left /= 2;
        }
    }
    marks
}

// Whether a mark may stand on an item: 0, or 1 where it may turn.
fn mark_allowed(turns: bool, mark: u8) -> bool
    ensures { result ≡ mark_allowed turns mark }
{
    match mark {
        0 => true,
        1 => turns,
        _ => false,
    }
}

// Whether the marks of all items may stand on them.
pub fn marks_allowed(instance: Instance, marks: [u8; Instance::MAX_ITEMS]) -> bool
    requires { instance.item_count ≤ max_items }
    ensures { result ≡ marks_allowed instance marks }
{
    instance
        .items
        .iter()
        .zip(&marks)
        .take(instance.item_count)
        .all(|(item, mark)| mark_allowed(item.may_turn, *mark))
}

// An item with width and depth exchanged, where its mark is 1.
fn turned_item(item: Item, mark: u8) -> Item
    ensures { result ≡ turned_item (is_turned mark) item }
{
    if mark != 1 {
        return item;
    }
    let size = Size {
        width: item.size.depth,
        depth: item.size.width,
        ..item.size
    };
    Item { size, ..item }
}

// The instance with its marked items turned.
pub fn turned(instance: Instance, marks: [u8; Instance::MAX_ITEMS]) -> Instance
    ensures { result ≡ turned_instance instance marks }
{
    let items = array::from_fn(|u| turned_item(instance.items[u], marks[u]));
    Instance { items, ..instance }
}
