//! The head of an image: its version and the number of its entries.

ghost use Rattle.std.specs.Prelude.{◌≡◌, ◌≤◌, length, IfOk};
ghost use Rattle.site_image.specs.Prelude.{version_of, image_head};

use crate::site_error::{SiteError, SiteWhy};
use crate::version::Version;
use crate::{LONGEST_IMAGE, MOST_FILES};

/// Returns the fault of the whole image.
fn whole(why: SiteWhy) -> SiteError
    ensures { result ≡ record { why = why; entry = 0 } }
{
    SiteError { why, entry: 0 }
}

/// Returns the version by the first eight bytes.
fn version_at(bytes: &[u8]) -> Result<Version, SiteError>
    ensures { result ≡ version_of bytes.now }
{
    let one: &[u8] = b"UIPSITE1";
    let two: &[u8] = b"UIPSITE2";
    if bytes.starts_with(one) {
        return Ok(Version::One);
    }
    if bytes.starts_with(two) {
        return Ok(Version::Two);
    }
    Err(whole(SiteWhy::Magic))
}

/// Returns the version of an image and the number of its entries, or the first fault that is of no entry.
#[tactic(auto, unfolding(crate::specs::Faults::image_head))]
pub fn read_head(bytes: &[u8]) -> Result<(Version, usize), SiteError>
    ensures head { result ≡ image_head bytes.now }
    ensures size { IfOk result (λ head. (10 ≤ length bytes.now) × (length bytes.now ≤ LONGEST_IMAGE)) }
    ensures few { IfOk result (λ head. head.1 ≤ MOST_FILES) }
{
    if bytes.len() > LONGEST_IMAGE {
        return Err(whole(SiteWhy::TooLong));
    }
    let version = version_at(bytes)?;
    if bytes.len() < 10 {
        return Err(whole(SiteWhy::Cut));
    }
    let count = u16::from_be_bytes([bytes[8], bytes[9]]) as usize;
    if count > MOST_FILES {
        return Err(whole(SiteWhy::TooMany));
    }
    Ok((version, count))
}
