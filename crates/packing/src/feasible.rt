// The three conditions of a feasible packing.
ghost use Rattle.sheet.specs.Sheet.{max_items};
ghost use Rattle.std.specs.Prelude.{◌≡◌, ◌<◌};
ghost use Rattle.model.specs.Problem.{inside_test, apart_on_some_axis, apart_test, ordered_test};
ghost use Rattle.instance.specs.Meaning.{problem_of, positions_of};
ghost use Rattle.packing.specs.Axes.{axis_number};
ghost use Rattle.packing.specs.Parts.{inside_on, apart_from_lower, precedence_kept};

use crate::axes::{Axis, Placed};
use instance::valid::ValidInstance;
use instance::{Instance, Packing};
use parts::Precedence;

// On one axis every item ends within the container.
fn inside_on_axis(valid: &ValidInstance, packing: &Packing, axis: Axis) -> bool
    ensures { result ≡ inside_on (problem_of valid.now.instance) (positions_of packing.now) (axis_number axis) }
{
    let instance = &valid.instance;
    let limit = u32::from(axis.measure_of(instance.container));
    (0..instance.item_count).all(|u| Placed::new(instance, packing, u).end(axis) <= limit)
}

// On every axis every item ends within the container.
pub fn inside(valid: &ValidInstance, packing: &Packing) -> bool
    ensures { result ≡ inside_test (problem_of valid.now.instance) (positions_of packing.now) }
{
    Axis::ALL
        .iter()
        .all(|axis| inside_on_axis(valid, packing, *axis))
}

// Two items are apart on some axis: on x and y by the walkway.
fn apart_on_some_axis(instance: &Instance, packing: &Packing, u: usize, v: usize) -> bool
    requires { (u < max_items) × (v < max_items) }
    ensures { result ≡ apart_on_some_axis (problem_of instance.now) (positions_of packing.now) u v }
{
    let first = Placed::new(instance, packing, u);
    let second = Placed::new(instance, packing, v);
    Axis::ALL.iter().any(|axis| first.is_apart_from(second, *axis, instance.walkway))
}

// An item is apart from every item of a lower number.
fn apart_from_lower_items(instance: &Instance, packing: &Packing, u: usize) -> bool
    requires { u < max_items }
    ensures { result ≡ apart_from_lower (problem_of instance.now) (positions_of packing.now) u }
{
    (0..u).all(|v| apart_on_some_axis(instance, packing, u, v))
}

// Each two items are apart on some axis.
pub fn apart(valid: &ValidInstance, packing: &Packing) -> bool
    ensures { result ≡ apart_test (problem_of valid.now.instance) (positions_of packing.now) }
{
    let instance = &valid.instance;
    (0..instance.item_count).all(|u| apart_from_lower_items(instance, packing, u))
}

// A precedence is kept on t, with its lag.
fn is_kept(instance: &Instance, packing: &Packing, o: Precedence) -> bool
    requires { (o.predecessor < max_items) × (o.successor < max_items) }
    ensures { result ≡ precedence_kept instance.now.items packing.now.positions o }
{
    let first = Placed::new(instance, packing, usize::from(o.predecessor));
    let second = Placed::new(instance, packing, usize::from(o.successor));
    first.ends_ahead(second, Axis::T, o.lag)
}

// Each precedence is kept on t, with its lag.
pub fn ordered(valid: &ValidInstance, packing: &Packing) -> bool
    ensures { result ≡ ordered_test (problem_of valid.now.instance) (positions_of packing.now) }
{
    let instance = &valid.instance;
    instance
        .precedences
        .iter()
        .take(instance.precedence_count)
        .all(|o| is_kept(instance, packing, *o))
}
