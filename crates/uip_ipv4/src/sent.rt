//! The header that is sent (RFC 791, section 3.1).

ghost use Rattle.std.specs.Prelude.{◌≡◌, ◌≤◌, ◌++◌, length, drop};
ghost use Rattle.uip_ipv4.specs.Prelude.{ReadsBack, head_bytes, numbered_head, numbered_with};

use crate::proto::Proto;
use uip_wire::{Addr, checksum, put16};

/// Writes a header before a datagram, with no options, a time to live of 64 and its checksum.
#[tactic(auto, unfolding(crate::specs::Head::head_bytes, crate::specs::Head::numbered_head))]
pub fn put_head(out: &mut [u8], total: u16, id: u16, proto: Proto, source: Addr, target: Addr)
    requires { 20 ≤ length out.old }
    ensures { out.new ≡ head_bytes total id proto source.0 target.0 ++ drop 20 out.old }
{
    put_numbered_head(out, total, id, proto.number(), source, target);
}

/// Writes the same for the protocol of this number (RFC 790), which need not be one that `check` accepts.
#[tactic(auto, unfolding(crate::specs::Head::numbered_head))]
pub fn put_numbered_head(
    out: &mut [u8],
    total: u16,
    id: u16,
    number: u8,
    source: Addr,
    target: Addr,
)
    requires { 20 ≤ length out.old }
    ensures { out.new ≡ numbered_head total id number source.0 target.0 ++ drop 20 out.old }
{
    let mut head = head_without_sum(total, id, number, source, target);
    let sum = checksum(&head);
    put16(&mut head, 10, sum);
    out[..20].copy_from_slice(&head);
}

/// A header that was written before a whole datagram passes every check and is read back as written.
pub fn reads_back()
    ensures { ReadsBack }
{}

/// Returns the header with 0 in place of its checksum.
fn head_without_sum(total: u16, id: u16, number: u8, source: Addr, target: Addr) -> [u8; 20]
    ensures { result ≡ numbered_with 0 total id number source.0 target.0 }
{
    let [total_high, total_low] = total.to_be_bytes();
    let [id_high, id_low] = id.to_be_bytes();
    let [source0, source1, source2, source3] = source.0;
    let [target0, target1, target2, target3] = target.0;
    [
        0x45, 0, total_high, total_low, id_high, id_low, 0, 0, 64, number, 0, 0, source0, source1,
        source2, source3, target0, target1, target2, target3,
    ]
}
