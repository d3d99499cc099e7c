//! Ethernet with ARP.

ghost use Rattle.std.specs.Prelude.{◌≡◌, ◌≤◌, ◌++◌, List, length, take};
ghost use Rattle.uip_wire.specs.Prelude.{written};
ghost use Rattle.line_medium.specs.Prelude.{acts_among};
ghost use Rattle.ethernet_arp.specs.Prelude.{frame_brings, Act, Knows, host_of};
ghost use Rattle.frame_device.specs.EtherFrames.{ether_frames, interface_of};
ghost use Rattle.frame_device.specs.FrameSpecs.{FitsFrame, ReportsFrame};
ghost use Rattle.frame_device.specs.NextHop.{interface_at};

use crate::frames::{Decoded, Frames, LARGEST_OUT};
use crate::network::Network;
use ethernet_arp::{ARP_FRAME, Arp, LARGEST_FRAME, Mac, SMALLEST_FRAME, Taken, take, wrap_via};
use uip_wire::Addr;

/// The length of the shortest datagram that is sent, a header alone, in bytes.
const SMALLEST_DATAGRAM: usize = 20;

/// Ethernet as one host uses it: its addresses, its table of ARP and its network.
#[derive(Drop)]
pub struct Ethernet {
    pub arp: Arp,
    pub network: Network,
}

impl Ethernet {
    ghost use Rattle.std.specs.Prelude.{◌≡◌, []};

    /// Makes the Ethernet of a host that has learned nothing.
    pub fn new(own: Addr, mac: Mac, network: Network) -> Ethernet
        ensures interface { interface_of result ≡ interface_at own mac network }
        ensures knows { Knows result.arp [] }
    {
        Ethernet {
            arp: Arp::new(own, mac),
            network,
        }
    }
}

/// Copies a part to the start of a buffer.
fn put_prefix(buf: &mut [u8], part: &[u8])
    requires { length part.now ≤ length buf.old }
    ensures { buf.new ≡ written buf.old 0 part.now }
{
    buf[..part.len()].copy_from_slice(part);
}

/// Receives a frame of 14 to 1514 bytes.
fn take_whole(ether: &mut Ethernet, buf: &mut [u8], len: usize) -> Decoded
    requires least { SMALLEST_FRAME ≤ len }
    requires most { len ≤ LARGEST_FRAME }
    requires room { LARGEST_OUT ≤ length buf.old }
    ensures long { length buf.new ≡ length buf.old }
    ensures fits { FitsFrame (length buf.new) result }
    ensures interface { interface_of ether.new ≡ interface_of ether.old }
    ensures reported { ReportsFrame (ether_frames (interface_of ether.old)) buf.new result
        (frame_brings (host_of ether.old.arp) (take len buf.old)) }
    ensures knows { (acts : List Act) → Knows ether.old.arp acts
        → Knows ether.new.arp (acts ++ acts_among (frame_brings (host_of ether.old.arp) (take len buf.old))) }
{
    let mut reply = [0; ARP_FRAME];
    match take(&mut ether.arp, &buf[..len], &mut reply) {
        Taken::Nothing => Decoded::Nothing,
        Taken::Reply(len) => {
            put_prefix(buf, &reply[..len]);
            Decoded::Own(len)
        }
        Taken::Datagram { at, len } => Decoded::Datagram { at, len },
    }
}

impl Frames for Ethernet {
    ghost use Rattle.std.specs.Prelude.{◌≡◌, List};
    ghost use Rattle.ethernet_arp.specs.Learning.{Act as EtherAct};
    ghost use Rattle.ethernet_arp.specs.Table.{Knows};
    ghost use Rattle.frame_device.specs.EtherFrames.{ether_frames, interface_of};
    ghost use Rattle.frame_device.specs.EtherBytes.{ether_brings_bytes};
    ghost use Rattle.frame_device.specs.NextHop.{Interface};

    ghost Act = { EtherAct };

    ghost Config = { Interface };

    ghost spec = { ether_frames };

    ghost did = { λ s k acts. (interface_of s ≡ k) × Knows s.arp acts };

    fn take(&mut self, buf: &mut [u8], len: usize) -> Decoded {
        if len < SMALLEST_FRAME || len > LARGEST_FRAME {
            return Decoded::Nothing;
        }
        take_whole(self, buf, len)
    }

    fn tick(&mut self) {
        self.arp.tick();
    }

    fn wrap(&self, datagram: &[u8], out: &mut [u8]) -> usize {
        if datagram.len() < SMALLEST_DATAGRAM {
            return 0;
        }
        let hop = self.network.next_hop(self.arp.own, Addr::get(datagram, 16));
        wrap_via(&self.arp, hop, datagram, out)
    }

    ghost bytes = { ether_brings_bytes };
}
