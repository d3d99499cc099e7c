//! What holds of the constants of this crate.

ghost use Rattle.c_calls.specs.ConstantValues.{ConstantValues};

/// The numbers that definitions and contracts name by the code's constants, which are those of the headers.
pub fn constant_values()
    ensures { ConstantValues }
{}
