//! The parts of an entry, each after its length.

ghost use Rattle.std.specs.Prelude.{◌≡◌, ◌+◌, ◌≤◌, ◌<◌, drop, length, IfOk, IfErr, Some, None};
ghost use Rattle.site_image.specs.Prelude.{name_fault, kind_fault, content_fault, byte_length, long_length, text};
ghost use Rattle.site_image.specs.Prelude.{after_text, kind_given, after_kind, content, after_content, IsPart};
ghost use Rattle.site_image.specs.declared.version.Version.TheVariants.{Two};

use crate::names::{is_kind, is_name};
use crate::part::Part;
use crate::site_error::SiteWhy;
use crate::version::Version;
use crate::{LONGEST_KIND, LONGEST_NAME};

/// Returns the length of the name at the start, after its length byte; or its fault.
fn name_len(bytes: &[u8]) -> Result<usize, SiteWhy>
    ensures ok { IfOk result (λ n. (name_fault bytes.now ≡ None) × (n ≡ byte_length bytes.now)) }
    ensures within { IfOk result (λ n. (n ≤ LONGEST_NAME) × (n + 1 ≤ length bytes.now)) }
    ensures err { IfErr result (λ why. name_fault bytes.now ≡ Some why) }
{
    if bytes.is_empty() {
        return Err(SiteWhy::Cut);
    }
    let len = bytes[0] as usize;
    if len == 0 || len > LONGEST_NAME {
        return Err(SiteWhy::Name);
    }
    if bytes.len() <= len {
        return Err(SiteWhy::Cut);
    }
    if !is_name(&bytes[1..][..len]) {
        return Err(SiteWhy::Name);
    }
    Ok(len)
}

/// Returns the length of the content type at the start, after its length byte; or its fault.
fn kind_len(bytes: &[u8]) -> Result<usize, SiteWhy>
    ensures ok { IfOk result (λ n. (kind_fault Two bytes.now ≡ None) × (n ≡ byte_length bytes.now)) }
    ensures within { IfOk result (λ n. (n ≤ LONGEST_KIND) × (n + 1 ≤ length bytes.now)) }
    ensures err { IfErr result (λ why. kind_fault Two bytes.now ≡ Some why) }
{
    if bytes.is_empty() {
        return Err(SiteWhy::Cut);
    }
    let len = bytes[0] as usize;
    if len > LONGEST_KIND {
        return Err(SiteWhy::Kind);
    }
    if bytes.len() <= len {
        return Err(SiteWhy::Cut);
    }
    if !is_kind(&bytes[1..][..len]) {
        return Err(SiteWhy::Kind);
    }
    Ok(len)
}

/// Returns the length of the content at the start, after its length of four bytes; or its fault.
fn content_len(bytes: &[u8]) -> Result<usize, SiteWhy>
    ensures ok { IfOk result (λ n. (content_fault bytes.now ≡ None) × (n ≡ long_length bytes.now)) }
    ensures within { IfOk result (λ n. n + 4 ≤ length bytes.now) }
    ensures err { IfErr result (λ why. content_fault bytes.now ≡ Some why) }
{
    if bytes.len() < 4 {
        return Err(SiteWhy::Cut);
    }
    let len = u32::from_be_bytes([bytes[0], bytes[1], bytes[2], bytes[3]]) as usize;
    if bytes.len() - 4 < len {
        return Err(SiteWhy::Cut);
    }
    Ok(len)
}

/// Returns the range of the name at `at`, or its fault.
pub fn name_part(image: &[u8], at: usize) -> Result<Part, SiteWhy>
    requires { at ≤ length image.now }
    ensures ok { IfOk result (λ part. (name_fault (drop at image.now) ≡ None)
        × IsPart image.now part (text (drop at image.now)) (after_text (drop at image.now))) }
    ensures err { IfErr result (λ why. name_fault (drop at image.now) ≡ Some why) }
{
    let len = name_len(&image[at..])?;
    Ok(short_part(image, at, len))
}

/// Returns the range of the content type at `at`, or its fault. Version 1 has none.
pub fn kind_part(image: &[u8], at: usize, version: Version) -> Result<Part, SiteWhy>
    requires { at ≤ length image.now }
    ensures ok { IfOk result (λ part. (kind_fault version (drop at image.now) ≡ None)
        × IsPart image.now part (kind_given version (drop at image.now)) (after_kind version (drop at image.now))) }
    ensures err { IfErr result (λ why. kind_fault version (drop at image.now) ≡ Some why) }
{
    match version {
        Version::One => Ok(Part {
            at,
            len: 0,
            next: at,
        }),
        Version::Two => {
            let len = kind_len(&image[at..])?;
            Ok(short_part(image, at, len))
        }
    }
}

/// Returns the range of the content at `at`, or its fault.
pub fn content_part(image: &[u8], at: usize) -> Result<Part, SiteWhy>
    requires { at ≤ length image.now }
    ensures ok { IfOk result (λ part. (content_fault (drop at image.now) ≡ None)
        × IsPart image.now part (content (drop at image.now)) (after_content (drop at image.now))) }
    ensures err { IfErr result (λ why. content_fault (drop at image.now) ≡ Some why) }
{
    let len = content_len(&image[at..])?;
    Ok(long_part(image, at, len))
}

/// Returns the range of the text at `at`, after its length byte.
fn short_part(image: &[u8], at: usize, len: usize) -> Part
    requires within { at + len + 1 ≤ length image.now }
    requires is_len { len ≡ byte_length (drop at image.now) }
    ensures { IsPart image.now result (text (drop at image.now)) (after_text (drop at image.now)) }
{
    Part {
        at: at + 1,
        len,
        next: at + 1 + len,
    }
}

/// Returns the range of the content at `at`, after its length of four bytes.
fn long_part(image: &[u8], at: usize, len: usize) -> Part
    requires within { at + len + 4 ≤ length image.now }
    requires is_len { len ≡ long_length (drop at image.now) }
    ensures { IsPart image.now result (content (drop at image.now)) (after_content (drop at image.now)) }
{
    Part {
        at: at + 4,
        len,
        next: at + 4 + len,
    }
}
