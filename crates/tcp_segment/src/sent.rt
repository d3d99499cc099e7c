//! The datagram of a segment that is sent (RFC 793, section 3.1).

ghost use Rattle.std.specs.Prelude.{◌≡◌, ◌+◌, ◌≤◌, [], ◌∷◌, ◌++◌, IsSome, drop, length, take};
ghost use Rattle.tcp_segment.specs.Prelude.{ReadsBack, datagram_len, sent_in};
ghost use Rattle.uip_wire.specs.Prelude.{bytes_of};

use crate::headers::put_headers;
use crate::out::Out;
use packet_buffer::Packet;
use uip_wire::{LARGEST_DATAGRAM, put32};

/// Writes the headers of a segment around the text at offset 40 of the packet, and sets the packet's length.
pub fn put(packet: &mut Packet, out: &Out)
    requires fits { datagram_len out.now ≤ length packet.old.area }
    requires no_text { IsSome out.now.mss → out.now.len ≡ 0 }
    ensures area { packet.new.area ≡ sent_in out.now packet.old.area }
    ensures len { packet.new.len ≡ datagram_len out.now }
{
    let len = put_in(packet.area_mut(), out);
    packet.set_len(len);
}

/// Writes the same datagram to the start of a slice, around the text at offset 40, and returns its length in bytes. Bytes beyond that
/// length are unchanged.
pub fn put_in(area: &mut [u8], out: &Out) -> usize
    requires fits { datagram_len out.now ≤ length area.old }
    requires largest { datagram_len out.now ≤ LARGEST_DATAGRAM }
    requires no_text { IsSome out.now.mss → out.now.len ≡ 0 }
    ensures length { result ≡ datagram_len out.now }
    ensures written { area.new ≡ sent_in out.now area.old }
{
    let Some(mss) = out.mss else {
        put_headers(area, out, 40 + out.len);
        return 40 + out.len;
    };
    put_option(area, mss);
    put_headers(area, out, 44);
    44
}

/// The datagram of a sound segment passes every check and is read back as that segment.
pub fn reads_back()
    ensures { ReadsBack }
{}

/// Writes the option for the maximum segment size after the header.
fn put_option(area: &mut [u8], mss: u16)
    requires { 44 ≤ length area.old }
    ensures { area.new ≡ take 40 area.old ++ bytes_of (516 ∷ mss ∷ []) ++ drop 44 area.old }
{
    put32(area, 40, 0x0204_0000 + u32::from(mss));
}
