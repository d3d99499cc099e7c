//! Images to write.

ghost use Rattle.std.specs.Prelude.{List, ℕ, Result};
ghost use Rattle.site_image.specs.declared.site_error.SiteError.{SiteError as AnyError};
ghost use Rattle.file_tree.specs.Prelude.{Gives};
ghost use Rattle.site_commands.specs.Prelude.{MakesImage, MadeOfFault};

use crate::halt::Halt;
use crate::outcome::Outcome;
use file_tree::LoadFault;
use std::alloc::Global;

/// Returns an image to write, or its first fault with nothing to write.
pub(crate) fn imaged(alloc: Global, made: Result<Vec<u8>, LoadFault>) -> Result<Outcome, Halt>
    ensures { (image : Result (List ℕ) AnyError) → Gives (λ bytes. bytes.items) made image → MakesImage image result }
{
    match made {
        Ok(text) => Ok(Outcome { text, fault: None }),
        Err(fault) => refused(alloc, fault),
    }
}

/// Returns nothing to write, for this fault.
pub(crate) fn refused(alloc: Global, fault: LoadFault) -> Result<Outcome, Halt>
    ensures { MadeOfFault fault result }
{
    match fault {
        LoadFault::Shelf => Err(Halt::Shelf),
        LoadFault::Bad(error) => Ok(Outcome {
            text: Vec::new(alloc),
            fault: Some(error),
        }),
        LoadFault::NoMemory => Err(Halt::NoMemory),
    }
}
