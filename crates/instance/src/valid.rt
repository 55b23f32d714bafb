// Instances that are known to be valid.
ghost use Rattle.std.specs.Prelude.{◌≡◌, true};
ghost use Rattle.instance.specs.Valid.{valid};

use crate::Instance;

// An instance of which none of number 9's conditions holds.
#[derive(Clone, Copy)]
pub struct ValidInstance {
    pub instance: Instance,
    ghost is_valid: { valid instance ≡ true },
}
