//! What a client receives in a datagram.

ghost use Rattle.std.specs.Prelude.{◌≡◌, ◌+◌, ◌≤◌, ◌==◌, ◌&&◌, IfSome, length, option_map};
ghost use Rattle.tcp_segment.specs.Prelude.{plain_of};
ghost use Rattle.std.specs.Prelude.{bytes_eq};
ghost use Rattle.link_client.specs.Prelude.{client_receives};

use crate::setup::Setup;
use tcp_segment::Segment;
use uip_ipv4::Proto;
use uip_wire::Addr;

/// Returns whether a segment from this address is of the client's connection.
fn is_of(setup: &Setup, source: Addr, segment: &Segment) -> bool
    ensures { result ≡ (bytes_eq source.0 setup.now.server.0
        && ((segment.now.from.0 == setup.now.server_port.0) && (segment.now.to.0 == setup.now.port.0))) }
{
    source == setup.server && segment.from.0 == setup.server_port.0 && segment.to.0 == setup.port.0
}

/// Returns the segment of its server in a datagram, if it is one.
pub(crate) fn receive(setup: &Setup, datagram: &[u8]) -> Option<Segment>
    ensures delivered { option_map (λ segment. plain_of segment datagram.now) result ≡ client_receives setup.now datagram.now }
    ensures inside { IfSome result (λ segment. segment.text_at + segment.text_len ≤ length datagram.now) }
{
    let Ok(head) = uip_ipv4::check(datagram, setup.addr) else {
        return None;
    };
    match head.proto {
        Proto::Icmp => None,
        Proto::Tcp => {
            let Ok(segment) = tcp_segment::check(datagram, &head) else {
                return None;
            };
            if is_of(setup, head.source, &segment) {
                return Some(segment);
            }
            None
        }
    }
}
