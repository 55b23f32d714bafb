// Readers. Each reads its part from what is left of a sheet, and answers the part with what is left after it.
#![tactic(auto, using(crate::proofs::Readers::readings))]

ghost use Rattle.std.specs.Prelude.{◌≡◌};
ghost use Rattle.formats.specs.Reading.{run};
ghost use Rattle.formats.specs.Fields.{optional_reading};
ghost use Rattle.parts.specs.Parts.{byte_number};
ghost use Rattle.parts.specs.Places.{PlacesFit, taken};

use crate::{Item, Precedence, Size, bit_is_set};
use refusal::Refusal;

// What is left of a sheet, and its place on the sheet.
#[derive(Clone, Copy)]
pub struct Rest<'a> {
    pub bytes: &'a [u8],
    pub at: usize,
    ghost fits: { PlacesFit at bytes.now },
}

// A one-byte field, with how many bytes it has; left out it means 0. `byte_field` without what is left after it: docs/READING.md names it, and it asks
// nothing of the place.
pub fn read_byte(bytes: &[u8], at: usize, present: bool) -> Result<(u8, usize), Refusal>
    ensures { run (optional_reading byte_number present) at bytes.now ≡ taken at bytes.now result }
{
    if !present {
        return Ok((0, 0));
    }
    if bytes.is_empty() {
        return Err(Refusal::EndsEarly(at));
    }
    if bytes[0] == 0 {
        return Err(Refusal::WrittenDefault(at));
    }
    Ok((bytes[0], 1))
}

impl<'a> Rest<'a> {
    ghost use Rattle.formats.specs.Reading.{done, end, read_as};
    ghost use Rattle.formats.specs.Formats.{byte, word, pair, tested};
    ghost use Rattle.formats.specs.Fields.{fields_reading};
    ghost use Rattle.parts.specs.Precedences.{unlagged};
    ghost use Rattle.parts.specs.Parts.{number, measure, count_field, size_fields, item, precedence, precedence_tests};
    ghost use Rattle.parts.specs.Answers.{answer, at_end, read_from};

    // All of a sheet.
    pub fn new(bytes: &'a [u8]) -> Rest<'a>
        ensures at_start { result.at ≡ 0 }
        ensures all { result.bytes.now ≡ bytes.now }
    {
        Rest { bytes, at: 0 }
    }

    // The next byte.
    pub fn byte(self) -> Result<(u8, Rest<'a>), Refusal>
        ensures { read_from byte.reading self.entry ≡ answer result }
    {
        if self.bytes.is_empty() {
            return Err(Refusal::EndsEarly(self.at));
        }
        let rest = Rest {
            bytes: &self.bytes[1..],
            at: self.at + 1,
        };
        Ok((self.bytes[0], rest))
    }

    // The next two.
    fn two_bytes(self) -> Result<((u8, u8), Rest<'a>), Refusal>
        ensures { read_from (pair byte byte).reading self.entry ≡ answer result }
    {
        if self.bytes.len() < 2 {
            return Err(Refusal::EndsEarly(self.at + self.bytes.len()));
        }
        let rest = Rest {
            bytes: &self.bytes[2..],
            at: self.at + 2,
        };
        Ok(((self.bytes[0], self.bytes[1]), rest))
    }

    // The next two, low byte first.
    fn word(self) -> Result<(u16, Rest<'a>), Refusal>
        ensures { read_from word.reading self.entry ≡ answer result }
    {
        let ((low, high), rest) = self.two_bytes()?;
        Ok((u16::from(low) + 256 * u16::from(high), rest))
    }

    // A two-byte field; left out it means `default`.
    pub fn field(self, present: bool, default: u16) -> Result<(u16, Rest<'a>), Refusal>
        ensures { read_from (optional_reading (number default) present) self.entry ≡ answer result }
    {
        if !present {
            return Ok((default, self));
        }
        let (v, rest) = self.word()?;
        if v <= default {
            return Err(Refusal::WrittenDefault(self.at));
        }
        Ok((v, rest))
    }

    // A measure, up to the greatest; left out it means 1.
    pub fn measure(self, present: bool) -> Result<(u16, Rest<'a>), Refusal>
        ensures { read_from (optional_reading measure present) self.entry ≡ answer result }
    {
        let (v, rest) = self.field(present, 1)?;
        if crate::MAX_MEASURE < v {
            return Err(Refusal::TooLarge(self.at));
        }
        Ok((v, rest))
    }

    // A one-byte field; left out it means 0.
    pub fn byte_field(self, present: bool) -> Result<(u8, Rest<'a>), Refusal>
        ensures { read_from (optional_reading byte_number present) self.entry ≡ answer result }
    {
        let (v, used) = read_byte(self.bytes, self.at, present)?;
        let rest = Rest {
            bytes: &self.bytes[used..],
            at: self.at + used,
        };
        Ok((v, rest))
    }

    // The count before a row, from 1 to `limit`; left out it means 0.
    pub fn count(self, present: bool, limit: usize) -> Result<(usize, Rest<'a>), Refusal>
        ensures { read_from (optional_reading (count_field limit) present) self.entry ≡ answer result }
    {
        if !present {
            return Ok((0, self));
        }
        let (byte, rest) = self.byte()?;
        let n = usize::from(byte);
        if n == 0 || limit < n {
            return Err(Refusal::BadCount(self.at));
        }
        Ok((n, rest))
    }

    // Width, depth and shifts, by bits 0, 1 and 2 of `map`.
    pub fn size(self, map: u8) -> Result<(Size, Rest<'a>), Refusal>
        ensures { read_from (fields_reading size_fields map 1) self.entry ≡ answer result }
    {
        let (width, rest) = self.measure(bit_is_set(map, 1))?;
        let (depth, rest) = rest.measure(bit_is_set(map, 2))?;
        let (shifts, rest) = rest.measure(bit_is_set(map, 4))?;
        let size = Size {
            width,
            depth,
            shifts,
        };
        Ok((size, rest))
    }

    // An item's record: its map byte and its fields. Bit 3 has no field.
    pub fn item(self) -> Result<(Item, Rest<'a>), Refusal>
        ensures { read_from item.reading self.entry ≡ answer result }
    {
        let (map, rest) = self.byte()?;
        if 15 < map {
            return Err(Refusal::UnknownBit(self.at));
        }
        let (size, rest) = rest.size(map)?;
        let may_turn = bit_is_set(map, 8);
        Ok((Item { size, may_turn }, rest))
    }

    // A precedence of a sheet with n items, after `last`. Its lag is on the sheet later: here it is 0.
    pub fn precedence(
        self,
        n: usize,
        last: Option<Precedence>,
    ) -> Result<(Precedence, Rest<'a>), Refusal>
        ensures { read_as unlagged (read_from (tested precedence (precedence_tests n last)).reading self.entry) ≡ answer result }
    {
        let ((predecessor, successor), rest) = self.two_bytes()?;
        let o = Precedence {
            predecessor,
            successor,
            lag: 0,
        };
        if !crate::valid::both_items(o, n) {
            return Err(Refusal::BadItem(self.at));
        }
        if !crate::valid::is_rising(last, o) {
            return Err(Refusal::NotRising(self.at));
        }
        Ok((o, rest))
    }

    // Nothing is left.
    pub fn end(self) -> Result<(), Refusal>
        ensures { read_from (end (done tt)) self.entry ≡ at_end self.entry.at result }
    {
        if self.bytes.is_empty() {
            Ok(())
        } else {
            Err(Refusal::TrailingBytes(self.at))
        }
    }
}
