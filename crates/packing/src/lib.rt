// The check of a packing, and the clearance of two items.
#![tactic(auto)]

ghost use Rattle.std.specs.Prelude.{◌≡◌};
ghost use Rattle.packing.specs.Check.{check_answer, Decides, TurnsMarked};
ghost use Rattle.packing.specs.Clearance.{clearance_answer, Answers};

use crate::axes::Axis;
use instance::valid::ValidInstance;
use instance::{Instance, Packing};
use refusal::Refusal;

mod axes;
mod feasible;
mod signed;

// The instance with the items turned that the packing marks.
fn turned_by(valid: ValidInstance, packing: &Packing) -> Result<ValidInstance, Refusal>
    ensures { TurnsMarked valid.instance packing.now.marks result }
{
    if !turning::marks_allowed(valid.instance, packing.marks) {
        return Err(Refusal::BadMark);
    }
    let instance = turning::turned(valid.instance, packing.marks);
    Ok(ValidInstance { instance })
}

// Whether the packing is feasible, with the marked items turned. Positions and marks past the instance's count are ignored.
pub fn check(instance: Instance, packing: Packing) -> Result<bool, Refusal>
    ensures value { result ≡ check_answer instance packing }
    ensures decides { Decides instance packing result }
{
    if !instance.is_valid() {
        return Err(Refusal::InvalidInstance);
    }
    let valid = ValidInstance { instance };
    let turned = turned_by(valid, &packing)?;
    let fits = feasible::inside(&turned, &packing)
        && feasible::apart(&turned, &packing)
        && feasible::ordered(&turned, &packing);
    Ok(fits)
}

// The clearance of the items u and v on an axis in modules, with the marked items turned: above 0 a gap, 0 touching, below 0 the overlap.
pub fn clearance(
    instance: Instance,
    packing: Packing,
    u: usize,
    v: usize,
    axis: u8,
) -> Result<i32, Refusal>
    ensures value { result ≡ clearance_answer instance packing u v axis }
    ensures answers { Answers instance packing u v axis result }
{
    let valid = instance.validated()?;
    if instance.item_count <= u || instance.item_count <= v {
        return Err(Refusal::BadItem(0));
    }
    let axis = Axis::try_from(axis)?;
    let turned = turned_by(valid, &packing)?;
    Ok(signed::clearance_on(turned.instance, packing, u, v, axis))
}
