// The instance: a container, its items and their precedences; and the packings and checkpoints that go with it.
#![tactic(auto)]

ghost use Rattle.std.specs.Prelude.{◌≡◌};
ghost use Rattle.instance.specs.Answers.{read_result};
ghost use Rattle.instance.specs.Sheets.{decode};
ghost use Rattle.instance.specs.Valid.{valid};
ghost use Rattle.instance.specs.Validated.{Validated};
ghost use Rattle.instance.specs.Values.{opening_checkpoint, origin_packing};

use crate::valid::ValidInstance;
use lists::{Items, Precedences};
use parts::read::Rest;
use parts::{Item, Precedence, Size, bit_is_set};
use refusal::Refusal;

pub mod valid;

// A sheet. Entries past the counts are no part of it. A count stands beside each array: a value may count more than there is room for, which gets
// refusal 9, and `valid`, `instance_of` and `SameInstance` speak of the fields.
#[derive(Clone, Copy)]
pub struct Instance {
    pub container: Size,
    pub items: [Item; Instance::MAX_ITEMS],
    pub item_count: usize,
    pub precedences: [Precedence; Instance::MAX_PRECEDENCES],
    pub precedence_count: usize,
    pub yard_number: u16,
    pub walkway: u8,
}

// Where one item starts.
#[derive(Clone, Copy, Debug, Default, PartialEq, Eq)]
pub struct Position {
    pub x: u16,
    pub y: u16,
    pub t: u16,
}

// A plan: where each item starts, and a mark, 1 for an item that is turned, its width and depth exchanged, and 0 for one that is not. Positions and
// marks past an instance's count are no part of it. The marks are an array of their own, of bytes: the theorem `clearance_answers` speaks of a
// packing's marks, and one above 1 gets refusal 13.
#[derive(Clone, Copy)]
pub struct Packing {
    pub positions: [Position; Instance::MAX_ITEMS],
    pub marks: [u8; Instance::MAX_ITEMS],
}

// Whether a search is still open, or how it ended.
#[derive(Clone, Copy, Debug, PartialEq, Eq)]
pub enum Status {
    Open,
    Infeasible,
    Packed,
}

// A note: where a search is. A branch is 0 for first and 1 for second; entries past the length are no part of it. The choice says which items are
// turned: the lowest-numbered of those that may be is its lowest binary digit. The length stands beside the array, as an instance's counts do: one
// that is too long gets refusal 10. Branches are bytes: "turns as [0; 270]", and a byte above 1 gets refusal 10 too (`well_formed`).
#[derive(Clone, Copy)]
pub struct Checkpoint {
    pub status: Status,
    pub length: usize,
    pub branches: [u8; Instance::MAX_BRANCHES],
    pub choice: u16,
}

impl Instance {
    pub const MAX_ITEMS: usize = lists::MAX_ITEMS;

    pub const MAX_PRECEDENCES: usize = lists::MAX_PRECEDENCES;

    pub const MAX_BRANCHES: usize = 270;

    // "Make 4,095 the greatest measure of halls and pieces."
    pub const MAX_MEASURE: u16 = parts::MAX_MEASURE;

    // "The longest sheet is 352 bytes."
    pub const MAX_BYTES: usize = 352;

    // The opening checkpoint: open with an empty path, at choice 0.
    #[tactic(auto, unfolding(crate::specs::Values::opening_checkpoint))]
    pub fn opening() -> Checkpoint
        ensures { result ≡ opening_checkpoint }
    {
        Checkpoint {
            status: Status::Open,
            length: 0,
            branches: [0; Self::MAX_BRANCHES],
            choice: 0,
        }
    }

    // Reads a sheet: a map byte, and the fields whose bits are set in it.
    #[tactic(auto, using(crate::proofs::Readers::readings))]
    pub fn read(bytes: &[u8]) -> Result<Instance, Refusal>
        ensures { result ≡ read_result (decode bytes.now) }
    {
        let (map, rest) = Rest::new(bytes).byte()?;
        let (container, rest) = rest.size(map)?;
        let (list, rest) = lists::read::read_items(rest, bit_is_set(map, 8))?;
        let Items {
            items,
            count: item_count,
        } = list;
        let (list, rest) = lists::read::read_precedences(rest, item_count, bit_is_set(map, 16))?;
        let Precedences {
            precedences,
            count: precedence_count,
        } = list;
        let (yard_number, rest) = rest.field(bit_is_set(map, 32), 0)?;
        let (lags, rest) = lists::read::read_lags(rest, precedence_count, bit_is_set(map, 64))?;
        let (walkway, rest) = rest.byte_field(bit_is_set(map, 128))?;
        rest.end()?;
        let precedences = lists::with_lags(precedences, lags);
        Ok(Instance {
            container,
            items,
            item_count,
            precedences,
            precedence_count,
            yard_number,
            walkway,
        })
    }

    // Whether the value is an instance: none of number 9's conditions holds.
    #[tactic(auto, unfolding(crate::specs::Valid::valid))]
    pub fn is_valid(self) -> bool
        ensures { result ≡ valid self }
    {
        self.item_count <= Self::MAX_ITEMS
            && self.precedence_count <= Self::MAX_PRECEDENCES
            && parts::valid::size_in_range(self.container)
            && lists::all_in_range(&self.items[..self.item_count])
            && lists::all_in_order(&self.precedences[..self.precedence_count], self.item_count)
    }

    // The value as a valid instance; or refusal 9, where one of that number's conditions holds.
    pub fn validated(self) -> Result<ValidInstance, Refusal>
        ensures { Validated self result }
    {
        if !self.is_valid() {
            return Err(Refusal::InvalidInstance);
        }
        Ok(ValidInstance { instance: self })
    }
}

impl Packing {
    // All items at the origin, and none turned.
    #[tactic(auto, unfolding(crate::specs::Values::origin_packing))]
    pub fn origin() -> Self
        ensures { result ≡ origin_packing }
    {
        Packing {
            positions: [Position::default(); Instance::MAX_ITEMS],
            marks: [0; Instance::MAX_ITEMS],
        }
    }
}
