//! The checks of a received segment (RFC 793, section 3.1).

ghost use Rattle.std.specs.Prelude.{◌≡◌, ◌+◌, ◌^◌, ◌<◌, IfOk, length};
ghost use Rattle.tcp_segment.specs.Prelude.{segment_in, segment_or_fate, pseudo_header};
ghost use Rattle.uip_ipv4.specs.Prelude.{IsHeadOf};

use crate::fate::TcpFate;
use crate::options::read_mss;
use crate::segment::Segment;
use crate::sums::pseudo_header;
use uip_ipv4::IpHead;
use uip_wire::{Addr, Port, Seq, checksum_joined, get16, get32};

/// Returns the segment of a datagram whose header was checked, or the first check that fails.
#[inline(always)]
pub fn check(bytes: &[u8], head: &IpHead) -> Result<Segment, TcpFate>
    requires { IsHeadOf head.now bytes.now }
    ensures exact { result ≡ segment_or_fate head.now bytes.now }
    ensures inside { IfOk result (λ segment. segment.text_at + segment.text_len ≡ head.now.total) }
{
    let payload = &bytes[20..usize::from(head.total)];
    read(payload, head.source, head.target)
}

/// Returns the segment between two addresses that these bytes represent, or the first check that fails.
/// [add: fate] TCP: its check.
#[tactic(auto, unfolding(crate::specs::Received::segment_in))]
#[inline(always)]
fn read(payload: &[u8], source: Addr, target: Addr) -> Result<Segment, TcpFate>
    requires { length payload.now < 2 ^ 16 }
    ensures exact { result ≡ segment_in source.0 target.0 payload.now }
    ensures inside { IfOk result (λ segment. segment.text_at + segment.text_len ≡ 20 + length payload.now) }
{
    if payload.len() < 20 {
        return Err(TcpFate::Short);
    }
    let header_len = 4 * usize::from(payload[12] / 16);
    if header_len < 20 || payload.len() < header_len {
        return Err(TcpFate::Offset);
    }
    if checksum(payload, source, target) != 0 {
        return Err(TcpFate::Checksum);
    }
    Ok(Segment {
        from: Port(get16(payload, 0)),
        to: Port(get16(payload, 2)),
        seq: Seq(get32(payload, 4)),
        ack: Seq(get32(payload, 8)),
        flags: payload[13] % 64,
        window: get16(payload, 14),
        mss: read_mss(&payload[20..header_len]),
        text_at: 20 + header_len,
        text_len: payload.len() - header_len,
    })
}

ghost use Rattle.std.specs.Prelude.{◌++◌};
ghost use Rattle.uip_wire.specs.Prelude.{checksum_of};

/// Returns the checksum over the pseudo header and a segment.
fn checksum(payload: &[u8], source: Addr, target: Addr) -> u16
    requires { length payload.now < 2 ^ 16 }
    ensures { result ≡ checksum_of (pseudo_header source.0 target.0 (length payload.now) ++ payload.now) }
{
    checksum_joined(
        &pseudo_header(source, target, payload.len() as u16),
        payload,
    )
}
