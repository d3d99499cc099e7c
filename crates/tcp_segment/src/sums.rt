ghost use Rattle.std.specs.Prelude.{◌≡◌};
ghost use Rattle.tcp_segment.specs.Prelude.{pseudo_header};

use uip_wire::Addr;

/// Returns the pseudo header: the addresses, the protocol's number and the length (RFC 793, section 3.1).
pub(crate) fn pseudo_header(source: Addr, target: Addr, len: u16) -> [u8; 12]
    ensures { result ≡ pseudo_header source.0 target.0 len }
{
    let [source0, source1, source2, source3] = source.0;
    let [target0, target1, target2, target3] = target.0;
    let [high, low] = len.to_be_bytes();
    [
        source0, source1, source2, source3, target0, target1, target2, target3, 0, 6, high, low,
    ]
}
