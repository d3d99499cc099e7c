//! What holds of the constants of this crate.

ghost use Rattle.uip_wire.specs.Prelude.{ConstantValues};

/// The numbers that the definitions name by the code's constants.
pub fn constant_values()
    ensures { ConstantValues }
{}
