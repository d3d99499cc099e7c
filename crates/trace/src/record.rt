//! The header and the records of a capture file.

ghost use Rattle.std.specs.Prelude.{◌≡◌, ◌≤◌, ◌+◌, ◌++◌, [], length};
ghost use Rattle.uip_wire.specs.Prelude.{long_bytes};
ghost use Rattle.uip_wire.specs.declared.sizes.TheConstants.{LARGEST_DATAGRAM};
ghost use Rattle.trace.specs.CaptureText.{record_bytes};

use crate::area::Area;
use uip_wire::LARGEST_DATAGRAM;

/// The header of a capture file: the magic number of times in microseconds, version 2.4, records of up to 65535 bytes, and
/// link type 101, which is a datagram with nothing before it.
pub(crate) const HEADER: [u8; 24] = [
    0xA1, 0xB2, 0xC3, 0xD4, 0, 2, 0, 4, 0, 0, 0, 0, 0, 0, 0, 0, 0, 0, 0xFF, 0xFF, 0, 0, 0, 101,
];

/// Makes the record of a datagram.
pub(crate) fn put_record(area: &mut Area, silences: u64, datagram: &[u8])
    requires empty { area.old ≡ [] }
    requires most { length datagram.now ≤ LARGEST_DATAGRAM }
    ensures { area.new ≡ record_bytes silences datagram.now }
{
    let captured = datagram.len() as u32;
    let original = captured;
    put_long(area, (silences / 2 % 0x1_0000_0000) as u32);
    put_long(area, 500_000 * (silences % 2) as u32);
    put_long(area, captured);
    put_long(area, original);
    area.put(datagram);
}

/// Appends a number as four bytes, the high byte first.
fn put_long(area: &mut Area, number: u32)
    requires { length area.old ≤ 16 }
    ensures text { area.new ≡ area.old ++ long_bytes number }
    ensures len { length area.new ≡ length area.old + 4 }
{
    area.put(&number.to_be_bytes());
}
