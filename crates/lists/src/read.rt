// Reading the lists of a sheet, part by part.
ghost use Rattle.std.specs.Prelude.{◌≡◌, ◌≤◌, map, take, IfOk};
ghost use Rattle.formats.specs.Reading.{read_as};
ghost use Rattle.formats.specs.Fields.{optional_reading};
ghost use Rattle.parts.specs.Answers.{answer, read_from};
ghost use Rattle.parts.specs.Precedences.{unlagged};
ghost use Rattle.parts.specs.Parts.{lags_zero, lag_row, lag_list};
ghost use Rattle.sheet.specs.Sheet.{max_items, max_precedences, item_list, precedence_list};
ghost use Rattle.lists.specs.Lists.{item_row, precedence_row, Padded};
ghost use Rattle.lists.specs.Answers.{items_of, precedences_of};

use crate::{Items, MAX_ITEMS, MAX_PRECEDENCES, Precedences};
use parts::read::Rest;
use refusal::Refusal;

// The next n items.
fn read_item_row(rest: Rest<'_>, n: usize) -> Result<(Items, Rest<'_>), Refusal>
    requires { n ≤ max_items }
    ensures { read_from (item_row n) rest.entry ≡ read_as items_of (answer result) }
{
    let mut items = crate::no_items();
    let mut left = rest;
    for i in 0..n {
        let (item, after) = left.item()?;
        items[i] = item;
        left = after;
    }
    Ok((Items { items, count: n }, left))
}

// The next m precedences of a sheet with n items; their lags are 0.
fn read_precedence_row(
    rest: Rest<'_>,
    n: usize,
    m: usize,
) -> Result<(Precedences, Rest<'_>), Refusal>
    requires { m ≤ max_precedences }
    ensures { read_as (map unlagged) (read_from (precedence_row n None m) rest.entry) ≡ read_as precedences_of (answer result) }
{
    let mut precedences = crate::no_precedences();
    let mut last = None;
    let mut left = rest;
    for i in 0..m {
        let (o, after) = left.precedence(n, last)?;
        precedences[i] = o;
        last = Some(o);
        left = after;
    }
    let list = Precedences {
        precedences,
        count: m,
    };
    Ok((list, left))
}

// The next m lags, and 0 past them.
fn read_lag_row(rest: Rest<'_>, m: usize) -> Result<([u8; MAX_PRECEDENCES], Rest<'_>), Refusal>
    requires { m ≤ max_precedences }
    ensures value { read_from (lag_row m).reading rest.entry ≡ read_as (take m) (answer result) }
    ensures padded { IfOk result (λ r. Padded max_precedences 0 m r.0) }
{
    let mut lags = [0; MAX_PRECEDENCES];
    let mut left = rest;
    for i in 0..m {
        let (lag, after) = left.byte()?;
        lags[i] = lag;
        left = after;
    }
    Ok((lags, left))
}

// The count of items and the items; left out there are none.
pub fn read_items(rest: Rest<'_>, present: bool) -> Result<(Items, Rest<'_>), Refusal>
    ensures { read_from (optional_reading item_list present) rest.entry ≡ read_as items_of (answer result) }
{
    let (n, rest) = rest.count(present, MAX_ITEMS)?;
    read_item_row(rest, n)
}

// The count of precedences and the precedences of a sheet with n items, with lag 0; left out there are none.
pub fn read_precedences(
    rest: Rest<'_>,
    n: usize,
    present: bool,
) -> Result<(Precedences, Rest<'_>), Refusal>
    ensures { read_as (map unlagged) (read_from (optional_reading (precedence_list n) present) rest.entry)
        ≡ read_as precedences_of (answer result) }
{
    let (m, rest) = rest.count(present, MAX_PRECEDENCES)?;
    read_precedence_row(rest, n, m)
}

// No lag is above 0.
fn all_zero(lags: &[u8]) -> bool
    ensures { result ≡ lags_zero lags.now }
{
    lags.iter().all(|lag| *lag == 0)
}

// The lags of m precedences; left out they are all 0.
pub fn read_lags(
    rest: Rest<'_>,
    m: usize,
    present: bool,
) -> Result<([u8; MAX_PRECEDENCES], Rest<'_>), Refusal>
    requires { m ≤ max_precedences }
    ensures value { read_from (optional_reading (lag_list m) present) rest.entry ≡ read_as (take m) (answer result) }
    ensures padded { IfOk result (λ r. Padded max_precedences 0 m r.0) }
{
    if !present {
        let lags = [0; MAX_PRECEDENCES];
        return Ok((lags, rest));
    }
    let (lags, after) = read_lag_row(rest, m)?;
    if all_zero(&lags) {
        return Err(Refusal::NoLag(rest.at));
    }
    Ok((lags, after))
}
