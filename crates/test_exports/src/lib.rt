// Functions on values, callable on bytes and numbers: the comparison in tests/ reaches reading, writing, records, check and clearance
// through them. A value's bytes are those of `test_values`, so that it may be one that no sheet gives. Nothing else uses this crate.
#![tactic(auto)]

ghost use Rattle.std.specs.Prelude.{◌≡◌, length};
ghost use Rattle.packing.specs.Check.{check_number, check_answer};
ghost use Rattle.packing.specs.Clearance.{clearance_answer};
ghost use Rattle.writer.specs.Answers.{written_room};
ghost use Rattle.item_record.specs.Record.{item_record, item_record_code};
ghost use Rattle.test_values.specs.Values.{instance_in, packing_at};
ghost use Rattle.test_exports.specs.Exports.{values_of, number_in, place_in, length_in, clearance_in, sheet_values, written_values, cleared_values};
ghost use Rattle.test_exports.specs.Exports.{rewrite_length, rewrite_room, record_byte};

use instance::Instance;
use refusal::Refusal;

// The number of an answer's refusal; 0 where it is not refused.
fn number_of<T: Drop>(answer: Result<T, Refusal>) -> u32
    ensures { result ≡ number_in (values_of answer) }
{
    match answer {
        Ok(_) => 0,
        Err(e) => u32::from(e.number()),
    }
}

// Its place; 0 where it is not refused.
fn place_of<T: Drop>(answer: Result<T, Refusal>) -> usize
    ensures { result ≡ place_in (values_of answer) }
{
    match answer {
        Ok(_) => 0,
        Err(e) => e.place(),
    }
}

// The number of a sheet's refusal; 0 where it reads.
#[unsafe(no_mangle)]
pub extern "C" fn exports_read_number(sheet: &[u8]) -> u32
    ensures { result ≡ number_in (sheet_values sheet.now) }
{
    number_of(Instance::read(sheet))
}

// Its place; 0 where it reads.
#[unsafe(no_mangle)]
pub extern "C" fn exports_read_place(sheet: &[u8]) -> usize
    ensures { result ≡ place_in (sheet_values sheet.now) }
{
    place_of(Instance::read(sheet))
}

// Reads a sheet and writes it again: how many bytes, 0 where one of the two is refused.
#[unsafe(no_mangle)]
pub extern "C" fn exports_rewrite(sheet: &[u8], room: &mut [u8]) -> usize
    ensures value { result ≡ rewrite_length (sheet_values sheet.now) (length room.old) }
    ensures room_after { room.new ≡ rewrite_room (sheet_values sheet.now) room.old }
{
    match Instance::read(sheet) {
        Ok(instance) => writer::write(instance, room).unwrap_or(0),
        Err(_) => 0,
    }
}

// Writes a value: how many bytes, 0 where it is refused.
#[unsafe(no_mangle)]
pub extern "C" fn exports_write(value: &[u8], room: &mut [u8]) -> usize
    ensures value { result ≡ length_in (written_values value.now (length room.old)) }
    ensures room_after { room.new ≡ written_room (instance_in value.now) room.old }
{
    writer::write(test_values::instance_in(value), room).unwrap_or(0)
}

// The number of the refusal; 0 where it is written.
#[unsafe(no_mangle)]
pub extern "C" fn exports_write_number(value: &[u8], room: &mut [u8]) -> u32
    ensures value { result ≡ number_in (written_values value.now (length room.old)) }
    ensures room_after { room.new ≡ written_room (instance_in value.now) room.old }
{
    number_of(writer::write(test_values::instance_in(value), room))
}

// Its place; 0 where it is written.
#[unsafe(no_mangle)]
pub extern "C" fn exports_write_place(value: &[u8], room: &mut [u8]) -> usize
    ensures value { result ≡ place_in (written_values value.now (length room.old)) }
    ensures room_after { room.new ≡ written_room (instance_in value.now) room.old }
{
    place_of(writer::write(test_values::instance_in(value), room))
}

// Number and place of the refusal of item k's record; 0 and 0 where it is not refused.
#[unsafe(no_mangle)]
pub extern "C" fn exports_record_number(sheet: &[u8], k: usize) -> u32
    ensures { result ≡ (item_record_code sheet.now k).number }
{
    u32::from(item_record::item_record_refusal(sheet, k).number)
}

#[unsafe(no_mangle)]
pub extern "C" fn exports_record_place(sheet: &[u8], k: usize) -> usize
    ensures { result ≡ (item_record_code sheet.now k).place }
{
    item_record::item_record_refusal(sheet, k).place
}

// Byte i of item k's record; 256 past its end.
#[tactic(auto, unfolding(crate::specs::Exports::record_byte))]
#[unsafe(no_mangle)]
pub extern "C" fn exports_record_byte(sheet: &[u8], k: usize, i: usize) -> u32
    ensures { result ≡ record_byte (item_record sheet.now k) i }
{
    let record = item_record::item_record(sheet, k);
    record.get(i).map_or(256, |byte| u32::from(*byte))
}

// The check of a value with a packing: 0 no, 1 yes, 100 plus the number of a refusal.
#[unsafe(no_mangle)]
pub extern "C" fn exports_check(value: &[u8], plan: &[u8]) -> u32
    ensures { result ≡ check_number (check_answer (instance_in value.now) (packing_at plan.now 0)) }
{
    let instance = test_values::instance_in(value);
    let packing = test_values::packing_at(plan, 0);
    match packing::check(instance, packing) {
        Ok(feasible) => u32::from(feasible),
        Err(e) => 100 + u32::from(e.number()),
    }
}

fn clearance_of(value: &[u8], plan: &[u8], u: usize, v: usize, axis: u8) -> Result<i32, Refusal>
    ensures { result ≡ clearance_answer (instance_in value.now) (packing_at plan.now 0) u v axis }
{
    let instance = test_values::instance_in(value);
    let packing = test_values::packing_at(plan, 0);
    packing::clearance(instance, packing, u, v, axis)
}

// The clearance of two items on an axis; 0 where it is refused.
#[unsafe(no_mangle)]
pub extern "C" fn exports_clearance(value: &[u8], plan: &[u8], u: usize, v: usize, axis: u8) -> i32
    ensures { result ≡ clearance_in (cleared_values value.now plan.now u v axis) }
{
    clearance_of(value, plan, u, v, axis).unwrap_or(0)
}

// The number of its refusal; 0 where it is not refused.
#[unsafe(no_mangle)]
pub extern "C" fn exports_clearance_number(
    value: &[u8],
    plan: &[u8],
    u: usize,
    v: usize,
    axis: u8,
) -> u32
    ensures { result ≡ number_in (cleared_values value.now plan.now u v axis) }
{
    number_of(clearance_of(value, plan, u, v, axis))
}

// Its place; 0 where it is not refused.
#[unsafe(no_mangle)]
pub extern "C" fn exports_clearance_place(
    value: &[u8],
    plan: &[u8],
    u: usize,
    v: usize,
    axis: u8,
) -> usize
    ensures { result ≡ place_in (cleared_values value.now plan.now u v axis) }
{
    place_of(clearance_of(value, plan, u, v, axis))
}
