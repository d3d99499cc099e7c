//! Serves a line of Ethernet frames (RFC 894).

ghost use Rattle.std.specs.Prelude.{◌≡◌};
ghost use Rattle.serve_loop.specs.Prelude.{ServesOver};
ghost use Rattle.ethernet_arp.specs.Prelude.{ether_medium, Knows, host_of};
ghost use Rattle.uip_edge.specs.Prelude.{line_view};

use crate::arp::Arp;
use crate::ether_line::EtherLine;
use app_events::App;
use serve_loop::serve_over;
use uip_edge::{Link, ServeEnd, Sink};
use uip_node::Node;

/// Serves a line of Ethernet frames, each after its length in two bytes, at the node and its host, up to `items` items. At a pace above 0
/// every `pace` bytes make a tick; each silence makes one. It is not passed an allocator.
#[inline(never)]
pub fn serve_ether<A: App, L: Link, K: Sink>(
    node: &mut Node<A>,
    arp: &mut Arp,
    link: &mut L,
    sink: &mut K,
    pace: u64,
    items: u64,
) -> ServeEnd
    ensures same { A.config node.new.shared ≡ A.config node.old.shared }
    ensures host { host_of arp.new ≡ host_of arp.old }
    ensures serves { ServesOver A.App (ether_medium (host_of arp.old))
        (λ acts. Knows arp.old acts) (λ acts. Knows arp.new acts) pace items node.old node.new
        (line_view L.Link K.Sink link.old sink.old)
        (line_view L.Link K.Sink link.new sink.new) result }
{
    let mut line = EtherLine::new(*arp);
    let end = serve_over(&mut line, node, link, sink, pace, items);
    arp.learn_all(&line.arp);
    end
}
