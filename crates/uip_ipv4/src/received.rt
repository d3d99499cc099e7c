//! The checks of a received header (RFC 791, section 3.1).

ghost use Rattle.std.specs.Prelude.{◌≡◌, ◌≤◌, IfOk, length};
ghost use Rattle.uip_ipv4.specs.Prelude.{IsHeadOf, head_or_fate};

use crate::fate::IpFate;
use crate::head::IpHead;
use crate::proto::Proto;
use uip_wire::{Addr, checksum, get16};

/// Returns the header of a datagram to the address `own`, or the first check that fails.
/// [add: fate] IP: its check.
#[tactic(auto, unfolding(crate::specs::Head::head_or_fate))]
#[inline(always)]
pub fn check(bytes: &[u8], own: Addr) -> Result<IpHead, IpFate>
    ensures exact { result ≡ head_or_fate bytes.now own.0 }
    ensures checked { IfOk result (λ head. IsHeadOf head bytes.now) }
    ensures ours { IfOk result (λ head. head.target ≡ own) }
    ensures least { IfOk result (λ head. 20 ≤ head.total) }
    ensures most { IfOk result (λ head. head.total ≤ length bytes.now) }
{
    if bytes.len() < 20 {
        return Err(IpFate::Short);
    }
    if bytes[0] != 0x45 {
        return Err(IpFate::Version);
    }
    let total = get16(bytes, 2);
    if total < 20 || usize::from(total) > bytes.len() {
        return Err(IpFate::Length);
    }
    // The bit for more fragments, and the offset of this one.
    if get16(bytes, 6) % 0x4000 != 0 {
        return Err(IpFate::Fragment);
    }
    if checksum(&bytes[..20]) != 0 {
        return Err(IpFate::Checksum);
    }
    if Addr::get(bytes, 16) != own {
        return Err(IpFate::NotOurs);
    }
    match Proto::from_number(bytes[9]) {
        None => Err(IpFate::Protocol),
        Some(proto) => Ok(IpHead {
            total,
            proto,
            source: Addr::get(bytes, 12),
            target: own,
        }),
    }
}
