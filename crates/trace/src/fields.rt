//! The header and the numbers of a capture file, in either byte order.

ghost use Rattle.std.specs.Prelude.{◌≡◌, ◌+◌, ◌≤◌, ◌&&◌, bytes_eq, drop, length, take};
ghost use Rattle.trace.specs.CaptureReading.{field_at, order_of as order_meant};

use crate::byte_order::ByteOrder;
use uip_wire::get32;

/// Returns the byte order of the file with this header, if the header is a good one.
pub(crate) fn order_of(header: &[u8]) -> Option<ByteOrder>
    requires { length header.now ≡ 24 }
    ensures { result ≡ order_meant header.now }
{
    if is_header(
        header,
        &[0xA1, 0xB2, 0xC3, 0xD4, 0, 2, 0, 4],
        &[0, 0, 0, 101],
    ) {
        return Some(ByteOrder::Big);
    }
    if is_header(
        header,
        &[0xD4, 0xC3, 0xB2, 0xA1, 2, 0, 4, 0],
        &[101, 0, 0, 0],
    ) {
        return Some(ByteOrder::Little);
    }
    None
}

/// Returns whether a header has this signature and this link type.
fn is_header(header: &[u8], signature: &[u8], link_type: &[u8]) -> bool
    requires { length header.now ≡ 24 }
    ensures { result ≡ (bytes_eq (take 8 header.now) signature.now && bytes_eq (drop 20 header.now) link_type.now) }
{
    &header[..8] == signature && &header[20..] == link_type
}

/// Returns the field of four bytes at an offset.
pub(crate) fn field(order: ByteOrder, bytes: &[u8], at: usize) -> u32
    requires { at + 4 ≤ length bytes.now }
    ensures { result ≡ field_at order bytes.now at }
{
    match order {
        ByteOrder::Big => get32(bytes, at),
        ByteOrder::Little => {
            u32::from(bytes[at])
                + 256 * u32::from(bytes[at + 1])
                + 65536 * u32::from(bytes[at + 2])
                + 16_777_216 * u32::from(bytes[at + 3])
        }
    }
}
