// The opening domains of an instance.
#![tactic(auto)]

ghost use Rattle.std.specs.Prelude.{◌≡◌, true, map};
ghost use Rattle.parts.specs.Precedences.{arc_of, all_allowed};
ghost use Rattle.instance.specs.Meaning.{problem_of};
ghost use Rattle.opening.specs.Openings.{Fixes, Cuts, RootedIf};

use chains::totals::{STARTS, Totals};
use domains::ROWS;
use domains::bits::bit;
use domains::store::{Conflict, Store};
use instance::valid::ValidInstance;
use parts::Precedence;

mod layout;

// The opening domains with their rows, queue and totals.
#[derive(Clone, Copy)]
pub struct Root {
    pub store: Store,
    pub totals: Totals,
}

// All but "u before v" on t is removed for each of the precedences u, v.
fn fix_precedences(store: &mut Store, precedences: &[Precedence]) -> Result<(), Conflict>
    requires { all_allowed 10 None (map arc_of precedences.now) ≡ true }
    ensures { Fixes precedences.now store.old store.new result }
{
    for o in precedences {
        let u = usize::from(o.predecessor);
        let v = usize::from(o.successor);
        store.remove(2, u, bit(v) | bit(20 + v))?;
    }
    Ok(())
}

// Rule 5 for chains of one item each: of each axis and item those too long with it.
fn cut_pairs(store: &mut Store, totals: &Totals) -> Result<(), Conflict>
    ensures { Cuts totals.now.numbers store.old store.new result }
{
    for i in 0..ROWS {
        let a = i / 10;
        let u = i % 10;
        store.remove(a, u, totals.too_long(0, STARTS, a, u) << 10)?;
    }
    Ok(())
}

// The root of the search; or that the opening domains are inconsistent. Not inlined, so that what it takes of the stack is free again.
#[inline(never)]
pub fn root_of(valid: ValidInstance) -> Result<Root, Conflict>
    ensures { RootedIf (problem_of valid.instance) result }
{
    let totals = layout::lay_out(valid)?;
    let mut store = Store::full();
    let instance = &valid.instance;
    fix_precedences(
        &mut store,
        &instance.precedences[..instance.precedence_count],
    )?;
    cut_pairs(&mut store, &totals)?;
    Ok(Root { store, totals })
}
