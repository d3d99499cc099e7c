//! The law of a value that is set.

ghost use Rattle.device_values.specs.Prelude.{GivenIsShown};

/// A value that is set is shown as it is, and every other value is unchanged.
pub fn given_is_shown()
    ensures { GivenIsShown }
{}
