//! The elements of a list by their numbers.

ghost use Rattle.std.specs.Prelude.{◌≡◌, option_copied};
ghost use Rattle.link_world.specs.World.{numbered};

/// Returns the element with this number, counted from 1, if there is one.
pub(crate) fn at_number<T>(xs: &[T], number: usize) -> Option<&T>
    ensures { option_copied result ≡ numbered xs.now number }
{
    xs.get(number.checked_sub(1)?)
}
