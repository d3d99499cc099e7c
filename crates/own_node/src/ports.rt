//! Frames on Ethernet for ports that are not open.

ghost use Rattle.std.specs.Prelude.{◌≡◌, ◌∷◌, if◌then◌else◌};
ghost use Rattle.own_node.specs.Ports.{carries_segment, is_for_closed_port as is_for_closed, target_port as port_in};

use own_app::is_open_port;
use uip_wire::{WEB_PORT, get16};

/// Returns the destination port of the TCP segment that a frame carries, if it carries one.
fn target_port(frame: &[u8]) -> Option<u16>
    ensures { result ≡ (if carries_segment frame.now then Some (port_in frame.now) else None) }
{
    if frame.len() < 38 || get16(frame, 12) != 0x0800 || frame[14] != 0x45 || frame[23] != 6 {
        return None;
    }
    Some(get16(frame, 36))
}

/// Returns whether a frame carries a TCP segment to a port that is not open.
pub fn is_for_closed_port(ports: &[u16], frame: &[u8]) -> bool
    ensures { result ≡ is_for_closed ports.now frame.now }
{
    match target_port(frame) {
        Some(port) => !is_open_port(ports, port),
        None => false,
    }
}

/// The same if the port of web pages is open besides.
pub fn is_for_closed_port_of_pair(ports: &[u16], frame: &[u8]) -> bool
    ensures { result ≡ is_for_closed (WEB_PORT ∷ ports.now) frame.now }
{
    match target_port(frame) {
        Some(port) => port != WEB_PORT && !is_open_port(ports, port),
        None => false,
    }
}
