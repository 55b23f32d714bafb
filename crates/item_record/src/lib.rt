// An item's record, for the label printer: the part of the lent sheet that the item is read from.
#![tactic(auto)]

ghost use Rattle.std.specs.Prelude.{◌≡◌, ◌≤◌, length};
ghost use Rattle.formats.specs.Fields.{is_set};
ghost use Rattle.sheet.specs.Places.{two_if, measures_length, after_item, item_place};
ghost use Rattle.instance.specs.Sheets.{decode};
ghost use Rattle.item_record.specs.Record.{lookup, item_record, item_record_code};

use instance::Instance;
use refusal::Refusal;

// A refusal in numbers; 0 and 0 where nothing is refused. Numbers, and no Option of the refusal: "a second call gives number and place; it gives 0 and 0
// where nothing is refused" (`item_record_code`, of which the demands speak).
#[derive(Clone, Copy)]
pub struct RefusalCode {
    pub number: u8,
    pub place: usize,
}

// How many bytes a measure has, by its bit in a map byte.
fn measure_len(map: u8, weight: u8) -> usize
    requires { 1 ≤ weight }
    ensures { (result ≡ two_if (is_set map weight)) × (result ≤ 2) }
{
    if parts::bit_is_set(map, weight) { 2 } else { 0 }
}

// How many bytes the measures have whose bits are set in a map byte.
#[tactic(auto, unfolding(sheet::specs::Places::measures_length))]
fn measures_len(map: u8) -> usize
    ensures { (result ≡ measures_length map) × (result ≤ 6) }
{
    measure_len(map, 1) + measure_len(map, 2) + measure_len(map, 4)
}

// The place after the record at `place`.
#[tactic(auto, unfolding(sheet::specs::Places::after_item))]
fn after_record(bytes: &[u8], place: usize) -> usize
    requires { after_item bytes.now place ≤ length bytes.now }
    ensures { result ≡ after_item bytes.now place }
{
    place + 1 + measures_len(bytes[place])
}

// The place of item k's record: from record to record, by their map bytes.
fn place_of(bytes: &[u8], k: usize) -> usize
    requires { item_place bytes.now k ≤ length bytes.now }
    ensures { result ≡ item_place bytes.now k }
{
    let mut place = 2 + measures_len(bytes[0]);
    for _ in 0..k {
        place = after_record(bytes, place);
    }
    place
}

// Reads the sheet, and looks for item k on it.
fn look_up(bytes: &[u8], k: usize) -> Result<(), Refusal>
    ensures { result ≡ lookup (decode bytes.now) k }
{
    let instance = Instance::read(bytes)?;
    if k < instance.item_count {
        Ok(())
    } else {
        Err(Refusal::BadItem(0))
    }
}

// The part of the sheet that is the record of item k; empty where it is refused.
pub fn item_record(bytes: &[u8], k: usize) -> &[u8]
    ensures { result.now ≡ item_record bytes.now k }
{
    let Ok(()) = look_up(bytes, k) else {
        return &bytes[..0];
    };
    let start = place_of(bytes, k);
    let end = after_record(bytes, start);
    &bytes[start..end]
}

// Why the record of item k is refused; 0 and 0 where it is not.
#[tactic(auto, unfolding(crate::specs::Record::item_record_code))]
pub fn item_record_refusal(bytes: &[u8], k: usize) -> RefusalCode
    ensures { result ≡ item_record_code bytes.now k }
{
    match look_up(bytes, k) {
        Ok(()) => RefusalCode {
            number: 0,
            place: 0,
        },
        Err(e) => RefusalCode {
            number: e.number(),
            place: e.place(),
        },
    }
}
