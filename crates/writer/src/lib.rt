// Writing a sheet, field by field.
#![tactic(auto)]

ghost use Rattle.std.specs.Prelude.{◌≡◌, ◌≤◌, length};
ghost use Rattle.std.proofs.lemmas.List.Edits.{sets};
ghost use Rattle.formats.specs.Fields.{flags};
ghost use Rattle.sheet.specs.Sheet.{sheet_fields, longest_sheet};
ghost use Rattle.instance.specs.Reads.{Full};
ghost use Rattle.instance.specs.Sheets.{sheet_of, encode};
ghost use Rattle.writer.specs.Answers.{write_answer, written_room};

use instance::Instance;
use instance::valid::ValidInstance;
use refusal::Refusal;

mod counted;

// The map byte: a bit for each field that is written.
#[tactic(auto, using(crate::proofs::Sheets::sheets))]
fn map_of(valid: ValidInstance) -> u8
    ensures { result ≡ flags sheet_fields (sheet_of valid.instance) }
{
    let instance = &valid.instance;
    let counts = u8::from(instance.item_count != 0) + 2 * u8::from(instance.precedence_count != 0);
    parts::write::size_flags_of(instance.container)
        + 8 * counts
        + 32 * u8::from(instance.yard_number != 0)
        + 64 * u8::from(counted::has_lags(&instance.precedences[..instance.precedence_count]))
        + 128 * u8::from(instance.walkway != 0)
}

// How long the sheet is.
#[tactic(auto, using(crate::proofs::Sheets::sheets))]
fn sheet_len(valid: ValidInstance) -> usize
    ensures { (result ≡ length (encode valid.instance)) × (result ≤ longest_sheet) }
{
    let instance = &valid.instance;
    let precedences = &instance.precedences[..instance.precedence_count];
    1 + parts::write::size_len(instance.container)
        + counted::items_len(&instance.items[..instance.item_count])
        + counted::precedences_len(precedences)
        + 2 * usize::from(instance.yard_number != 0)
        + counted::lags_len(precedences)
        + usize::from(instance.walkway != 0)
}

// The whole sheet, at the front of the room.
#[tactic(auto, using(crate::proofs::Sheets::sheets))]
fn write_sheet(valid: ValidInstance, out: &mut [u8]) -> usize
    requires { length (encode valid.instance) ≤ length out.old }
    ensures value { result ≡ length (encode valid.instance) }
    ensures out_after { out.new ≡ sets out.old 0 (encode valid.instance) }
{
    let instance = &valid.instance;
    let items = &instance.items[..instance.item_count];
    let precedences = &instance.precedences[..instance.precedence_count];
    out[0] = map_of(valid);
    let a = parts::write::write_size(out, 1, instance.container);
    let b = counted::write_items(out, a, items);
    let c = counted::write_precedences(out, b, precedences);
    let d = parts::write::write_field(out, c, 0, instance.yard_number);
    let e = counted::write_lags(out, d, precedences);
    parts::write::write_byte(out, e, usize::from(instance.walkway))
}

// Writes the sheet into the lent room, if it is an instance and the room is long enough; returns how many bytes it wrote.
#[tactic(auto, using(crate::proofs::Sheets::sheets), unfolding(crate::specs::Answers::write_answer, crate::specs::Answers::written_room))]
pub fn write(instance: Instance, out: &mut [u8]) -> Result<usize, Refusal>
    ensures value { result ≡ write_answer instance (length out.old) }
    ensures out_after { out.new ≡ written_room instance out.old }
    ensures full { Full instance }
{
    let valid = instance.validated()?;
    if out.len() < sheet_len(valid) {
        return Err(Refusal::BadArgument);
    }
    Ok(write_sheet(valid, out))
}
