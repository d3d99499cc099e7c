//! Why a site cannot be loaded.

ghost use Rattle.std.specs.Prelude.{◌≡◌};
ghost use Rattle.file_tree.specs.declared.load_fault.LoadFault.TheVariants.{Bad, NoMemory};

use site_image::SiteError;
use std::alloc::{AllocError, AllocFailed};

/// Why there is no site, or no image.
#[derive(Clone, Copy, Debug, PartialEq, Eq)]
pub enum LoadFault {
    /// The shelf failed, or does not hold the file.
    Shelf,
    /// The image, or the list from which one was to be made, has this first fault.
    Bad(SiteError),
    /// Memory ran out.
    NoMemory,
}

impl From<SiteError> for LoadFault {
    ghost from_gives = { λ error fault. fault ≡ Bad error };

    fn from(error: SiteError) -> LoadFault {
        LoadFault::Bad(error)
    }
}

impl From<AllocError> for LoadFault {
    ghost from_gives = { λ _ fault. fault ≡ NoMemory };

    fn from(_error: AllocError) -> LoadFault {
        LoadFault::NoMemory
    }
}

impl<T: Drop> From<AllocFailed<T>> for LoadFault {
    ghost from_gives = { λ _ fault. fault ≡ NoMemory };

    fn from(_error: AllocFailed<T>) -> LoadFault {
        LoadFault::NoMemory
    }
}
