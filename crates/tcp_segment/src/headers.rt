//! Writes the headers of a segment (RFC 793, section 3.1).

ghost use Rattle.std.specs.Prelude.{◌≡◌, ◌+◌, ◌≤◌, ◌++◌, drop, length, slice_range};
ghost use Rattle.tcp_segment.specs.Prelude.{offset_of, pseudo_header, around, fixed_bytes};
ghost use Rattle.uip_wire.specs.Prelude.{checksum_of};

use crate::out::Out;
use crate::sums::pseudo_header;
use uip_ipv4::{Proto, put_head};
use uip_wire::{LARGEST_DATAGRAM, checksum_joined, put16, put32};

/// Writes both headers before the option and the text, which are at offset 40.
pub(crate) fn put_headers(area: &mut [u8], out: &Out, total: usize)
    requires least { 40 ≤ total }
    requires largest { total ≤ LARGEST_DATAGRAM }
    requires fits { total ≤ length area.old }
    ensures { area.new ≡ around out.now (slice_range area.old 40 total) ++ drop total area.old }
{
    put_fields(&mut area[20..40], out);
    let sum = segment_sum(out, &area[20..total]);
    put16(area, 36, sum);
    put_head(
        area,
        total as u16,
        out.id,
        Proto::Tcp,
        out.source,
        out.target,
    );
}

/// The checksum of a segment whose checksum field is 0 (RFC 793, section 3.1).
fn segment_sum(out: &Out, segment: &[u8]) -> u16
    requires { 20 + length segment.now ≤ LARGEST_DATAGRAM }
    ensures { result ≡ checksum_of (pseudo_header out.now.source.0 out.now.target.0 (length segment.now) ++ segment.now) }
{
    checksum_joined(
        &pseudo_header(out.source, out.target, segment.len() as u16),
        segment,
    )
}

/// Writes the first 20 bytes of the header, with 0 in place of the checksum.
fn put_fields(header: &mut [u8], out: &Out)
    requires { length header.old ≡ 20 }
    ensures { header.new ≡ fixed_bytes 0 out.now }
{
    put16(header, 0, out.from.0);
    put16(header, 2, out.to.0);
    put32(header, 4, out.seq.0);
    put32(header, 8, out.ack.0);
    put16(header, 12, offset_of(out.mss) * 4096 + u16::from(out.flags));
    put16(header, 14, out.window);
    put32(header, 16, 0);
}

/// Returns the length of the header in words of 32 bits.
fn offset_of(mss: Option<u16>) -> u16
    ensures { result ≡ offset_of mss }
{
    if mss.is_none() { 5 } else { 6 }
}
