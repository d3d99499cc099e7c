//! Why a command has nothing to write.

ghost use Rattle.std.specs.Prelude.{◌≡◌};
ghost use Rattle.site_commands.specs.declared.halt.Halt.TheVariants.{NoMemory};

use std::alloc::{AllocError, AllocFailed};

/// Why there is nothing to write.
#[derive(Clone, Copy, Debug, PartialEq, Eq)]
pub(crate) enum Halt {
    /// The shelf failed, or does not hold a file that is needed.
    Shelf,
    /// Memory ran out.
    NoMemory,
}

impl From<AllocError> for Halt {
    ghost from_gives = { λ _ halt. halt ≡ NoMemory };

    fn from(_error: AllocError) -> Halt {
        Halt::NoMemory
    }
}

impl<T: Drop> From<AllocFailed<T>> for Halt {
    ghost from_gives = { λ _ halt. halt ≡ NoMemory };

    fn from(_error: AllocFailed<T>) -> Halt {
        Halt::NoMemory
    }
}
