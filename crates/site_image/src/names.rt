//! The names and content types that an image may have.

ghost use Rattle.std.specs.Prelude.{◌≡◌};
ghost use Rattle.std.specs.List.{list_all};
ghost use Rattle.site_image.specs.Names as names;

use crate::{LONGEST_KIND, LONGEST_NAME};

/// Returns whether each byte is allowed in a name.
fn are_name_bytes(bytes: &[u8]) -> bool
    ensures { result ≡ list_all names.is_name_byte bytes.now }
{
    bytes
        .iter()
        .all(|byte| *byte >= 0x21 && *byte <= 0x7E && *byte != b'?')
}

/// Returns whether each byte is allowed in a content type.
fn are_kind_bytes(bytes: &[u8]) -> bool
    ensures { result ≡ list_all names.is_kind_byte bytes.now }
{
    bytes.iter().all(|byte| *byte >= 0x20 && *byte <= 0x7E)
}

/// Returns whether the bytes are a file's name: 1 to 64 bytes from 0x21 to 0x7E without `?`, the first of them `/`.
pub fn is_name(name: &[u8]) -> bool
    ensures { result ≡ names.is_name name.now }
{
    if name.is_empty() || name.len() > LONGEST_NAME {
        return false;
    }
    if name[0] != b'/' {
        return false;
    }
    are_name_bytes(name)
}

/// Returns whether the bytes are a content type: 0 to 64 bytes from 0x20 to 0x7E.
pub fn is_kind(kind: &[u8]) -> bool
    ensures { result ≡ names.is_kind kind.now }
{
    if kind.len() > LONGEST_KIND {
        return false;
    }
    are_kind_bytes(kind)
}
