//! Writes the parts of an image.

ghost use Rattle.std.specs.Prelude.{◌≡◌, ◌≤◌, ◌<◌, ◌++◌, ◌^◌, length, OnOk};
ghost use Rattle.std.specs.Int.{w16, to_be_bytes};
ghost use Rattle.site_image.specs.Prelude.{magic, short_text, long_text, entry};

use crate::version::Version;
use crate::{LONGEST_KIND, LONGEST_NAME, MOST_FILES};
use std::alloc::AllocError;

/// Appends a text after its length byte.
fn push_short(out: &mut Vec<u8>, text: &[u8]) -> Result<(), AllocError>
    requires { length text.now < 2 ^ 8 }
    ensures { OnOk result (out.new.items ≡ out.old.items ++ short_text text.now) }
{
    out.push(text.len() as u8)?;
    out.extend_from_slice(text)?;
    Ok(())
}

/// Appends a content after its length of four bytes.
fn push_long(out: &mut Vec<u8>, content: &[u8]) -> Result<(), AllocError>
    requires { length content.now < 2 ^ 32 }
    ensures { OnOk result (out.new.items ≡ out.old.items ++ long_text content.now) }
{
    let len = (content.len() as u32).to_be_bytes();
    out.extend_from_slice(&len)?;
    out.extend_from_slice(content)?;
    Ok(())
}

/// Appends the head, which is before the entries.
pub fn push_head(out: &mut Vec<u8>, version: Version, count: usize) -> Result<(), AllocError>
    requires { count ≤ MOST_FILES }
    ensures { OnOk result (out.new.items ≡ out.old.items ++ (magic version ++ to_be_bytes w16 count)) }
{
    let magic: &[u8] = match version {
        Version::One => b"UIPSITE1",
        Version::Two => b"UIPSITE2",
    };
    out.extend_from_slice(magic)?;
    let count = (count as u16).to_be_bytes();
    out.extend_from_slice(&count)?;
    Ok(())
}

/// Appends the entry of a file. Version 1 has no content type.
pub fn push_entry(
    out: &mut Vec<u8>,
    version: Version,
    name: &[u8],
    kind: &[u8],
    content: &[u8],
) -> Result<(), AllocError>
    requires name { length name.now ≤ LONGEST_NAME }
    requires kind { length kind.now ≤ LONGEST_KIND }
    requires content { length content.now < 2 ^ 32 }
    ensures { OnOk result (out.new.items ≡ out.old.items
        ++ entry version (record { name = name.now; kind = kind.now; content = content.now })) }
{
    push_short(out, name)?;
    if version == Version::Two {
        push_short(out, kind)?;
    }
    push_long(out, content)
}
