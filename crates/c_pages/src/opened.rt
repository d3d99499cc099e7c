//! What opening a device with a site reports.

ghost use Rattle.std.specs.Prelude.{◌≡◌, IfErr, IfOk, Ok, replicate};
ghost use Rattle.c_pages.specs.Opening.{IsWordOf, ReportsRefusal};

use c_calls::{BAD_IMAGE, NO_MEMORY};
use site_image::{SiteError, SiteWhy};
use site_report::why_word;
use std::alloc::Global;
use uip_device::OpenFault;

/// The result of opening. For a bad image `word` names the first fault, padded with zeros. `entry` is the number of the faulty entry,
/// counted from 1, or 0 for the whole image.
#[repr(C)]
#[derive(Clone, Copy, Debug, PartialEq, Eq)]
pub struct UipOpened {
    pub status: u32,
    pub entry: u32,
    pub word: [u8; 8],
}

/// Returns the word of a fault, padded with zeros.
fn word_of(why: SiteWhy) -> [u8; 8]
    ensures { IsWordOf why result }
{
    let mut word = [0; 8];
    let text = why_word(why);
    word[..text.len()].copy_from_slice(text);
    word
}

/// Returns a result without a fault.
#[inline]
pub fn plain(status: u32) -> UipOpened
    ensures { result ≡ record { status = status; entry = 0; word = replicate 8 0 } }
{
    UipOpened {
        status,
        entry: 0,
        word: [0; 8],
    }
}

/// Reports a fault of the image.
fn bad_site(error: SiteError) -> UipOpened
    ensures { (result.status ≡ BAD_IMAGE) × (result.entry ≡ error.entry) × IsWordOf error.why result.word }
{
    UipOpened {
        status: BAD_IMAGE,
        entry: error.entry,
        word: word_of(error.why),
    }
}

/// Returns the box of a device that was made. If none was made, or memory for the box is lacking, returns what is reported.
// Inlined, the device is not copied: 840 bytes of stack less on a Cortex-M4 (measured).
#[inline(always)]
pub fn boxed<T: Drop>(alloc: Global, made: Result<T, OpenFault>) -> Result<Box<T>, UipOpened>
    ensures boxed { IfOk result (λ opened. made ≡ Ok opened.value) }
    ensures refused { IfErr result (λ reported. ReportsRefusal made reported) }
{
    match made {
        Ok(made) => match Box::new(alloc, made) {
            Ok(opened) => Ok(opened),
            Err(_) => Err(plain(NO_MEMORY)),
        },
        Err(OpenFault::BadSite(error)) => Err(bad_site(error)),
        Err(OpenFault::NoMemory) => Err(plain(NO_MEMORY)),
    }
}
