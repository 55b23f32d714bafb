// Writing rows of parts with their count, and the lags. The room is long enough; each returns the place after what it wrote.
ghost use Rattle.std.specs.Prelude.{◌≡◌, ◌+◌, ◌*◌, ◌≤◌, length, map, not};
ghost use Rattle.std.proofs.lemmas.List.Edits.{sets};
ghost use Rattle.parts.specs.Precedences.{lag_of};
ghost use Rattle.parts.specs.Parts.{lags_zero};
ghost use Rattle.sheet.specs.Sheet.{max_items, max_precedences};
ghost use Rattle.writer.specs.Lists.{items_bytes, precedences_bytes, lags_bytes};

use parts::{Item, Precedence};

// How many bytes the items have with their count.
#[tactic(auto, using(crate::proofs::Rows::rows))]
pub fn items_len(items: &[Item]) -> usize
    requires { length items.now ≤ max_items }
    ensures { (result ≡ length (items_bytes items.now)) × (result ≤ 71) }
{
    let rows: usize = items.iter().map(|item| parts::write::item_len(*item)).sum();
    usize::from(!items.is_empty()) + rows
}

#[tactic(auto, using(crate::proofs::Rows::rows))]
pub fn write_items(out: &mut [u8], at: usize, items: &[Item]) -> usize
    requires { (length items.now ≤ max_items) × (at + length (items_bytes items.now) ≤ length out.old) }
    ensures value { result ≡ at + length (items_bytes items.now) }
    ensures out_after { out.new ≡ sets out.old at (items_bytes items.now) }
{
    let mut k = parts::write::write_byte(out, at, items.len());
    for item in items {
        k = parts::write::write_item(out, k, *item);
    }
    k
}

// The same of precedences.
#[tactic(auto, using(crate::proofs::Rows::rows))]
pub fn precedences_len(precedences: &[Precedence]) -> usize
    requires { length precedences.now ≤ max_precedences }
    ensures { (result ≡ length (precedences_bytes precedences.now)) × (result ≤ 181) }
{
    usize::from(!precedences.is_empty()) + 2 * precedences.len()
}

#[tactic(auto, using(crate::proofs::Rows::rows))]
pub fn write_precedences(out: &mut [u8], at: usize, precedences: &[Precedence]) -> usize
    requires { (length precedences.now ≤ max_precedences) × (at + length (precedences_bytes precedences.now) ≤ length out.old) }
    ensures value { result ≡ at + length (precedences_bytes precedences.now) }
    ensures out_after { out.new ≡ sets out.old at (precedences_bytes precedences.now) }
{
    let mut k = parts::write::write_byte(out, at, precedences.len());
    for o in precedences {
        k = parts::write::write_precedence(out, k, *o);
    }
    k
}

// A lag is above 0: the lags are written.
pub fn has_lags(precedences: &[Precedence]) -> bool
    ensures { result ≡ not (lags_zero (map lag_of precedences.now)) }
{
    precedences.iter().any(|o| o.lag != 0)
}

#[tactic(auto, using(crate::proofs::Lags::lags))]
pub fn lags_len(precedences: &[Precedence]) -> usize
    requires { length precedences.now ≤ max_precedences }
    ensures { (result ≡ length (lags_bytes precedences.now)) × (result ≤ 90) }
{
    if has_lags(precedences) {
        precedences.len()
    } else {
        0
    }
}

#[tactic(auto, using(crate::proofs::Lags::lags))]
pub fn write_lags(out: &mut [u8], at: usize, precedences: &[Precedence]) -> usize
    requires { at + length (lags_bytes precedences.now) ≤ length out.old }
    ensures value { result ≡ at + length (lags_bytes precedences.now) }
    ensures out_after { out.new ≡ sets out.old at (lags_bytes precedences.now) }
{
    if !has_lags(precedences) {
        return at;
    }
    for (i, o) in precedences.iter().enumerate() {
        out[at + i] = o.lag;
    }
    at + precedences.len()
}
