//! Output over a link that carries whole IP datagrams.

ghost use Rattle.std.specs.Prelude.{◌≡◌, ◌≤◌, List, length, take, Option};
ghost use Rattle.uip_wire.specs.declared.addr.Addr.{Addr as Address};
ghost use Rattle.sip_hash.specs.declared.key.Key.{Key};
ghost use Rattle.uip_node.specs.Prelude.{Reply};
ghost use Rattle.guarded_node.specs.Runs.{IsSentOver};
ghost use Rattle.guarded_node.specs.Wire.{leaving};
ghost use Rattle.uip_device.specs.Prelude.{datagram_sent};

use app_events::App;
use uip_node::Node;
use uip_wire::{LARGEST_DATAGRAM, copy_bytes};

/// Copies the datagram that a call of the guarded node sent, if it sent one, and returns its length in bytes.
pub(crate) fn copy_sent<A: App>(node: &Node<A>, sent: Option<usize>, out: &mut [u8]) -> usize
    requires room { LARGEST_DATAGRAM ≤ length out.old }
    ensures long { length out.new ≡ length out.old }
    ensures within { result ≤ length out.new }
    ensures bytes { (key : Option Key) (own : Address) (replies : List Reply) → IsSentOver (leaving key) own replies sent node.now.packet
        → take result out.new ≡ datagram_sent key own replies }
{
    if sent.is_none() {
        return 0;
    }
    let datagram = node.packet();
    copy_bytes(&mut out[..datagram.len()], datagram);
    datagram.len()
}
