//! Big-endian fields of headers (RFC 791, appendix B).

ghost use Rattle.std.specs.Prelude.{◌≡◌, ◌+◌, ◌≤◌, length};
ghost use Rattle.uip_wire.specs.Prelude.{word_at, long_at, word_bytes, long_bytes, written};

use byteorder::{BigEndian, ByteOrder};

/// Returns the big-endian 16-bit field at an offset.
pub fn get16(bytes: &[u8], at: usize) -> u16
    requires { at + 2 ≤ length bytes.now }
    ensures { result ≡ word_at bytes.now at }
{
    BigEndian::read_u16(&bytes[at..])
}

/// Returns the big-endian 32-bit field at an offset.
pub fn get32(bytes: &[u8], at: usize) -> u32
    requires { at + 4 ≤ length bytes.now }
    ensures { result ≡ long_at bytes.now at }
{
    BigEndian::read_u32(&bytes[at..])
}

/// Writes a big-endian 16-bit field. All other bytes are unchanged.
pub fn put16(bytes: &mut [u8], at: usize, value: u16)
    requires { at + 2 ≤ length bytes.old }
    ensures { bytes.new ≡ written bytes.old at (word_bytes value) }
{
    BigEndian::write_u16(&mut bytes[at..], value);
}

/// Writes a big-endian 32-bit field. All other bytes are unchanged.
pub fn put32(bytes: &mut [u8], at: usize, value: u32)
    requires { at + 4 ≤ length bytes.old }
    ensures { bytes.new ≡ written bytes.old at (long_bytes value) }
{
    BigEndian::write_u32(&mut bytes[at..], value);
}
