//! Resolves names over a line.

ghost use Rattle.std.specs.Prelude.{◌≡◌, length};
ghost use Rattle.udp_resolver.specs.Prelude.{questions_of, Resolves, streams};

use crate::MOST_NAMES;
use crate::lines::report_all;
use crate::run::{Run, ask};
use arrayvec::ArrayVec;
use dns_message::{Asking, Name};
use packet_buffer::Packet;
use uip_edge::{Failed, Link, ServeEnd, Sink};
use uip_wire::{Addr, LARGEST_DATAGRAM};

/// Queries a server for the addresses of names over a line, and reports the fate of each name. The fate is its address, that it has none,
/// the response code, `timeout`, or `open` if the link ended or `items` items were taken first. The first name is queried with this id,
/// each further one with the next. It is not passed an allocator.
#[inline(never)]
pub fn resolve<L: Link, K: Sink, T: Sink>(
    packet: &mut Packet,
    own: Addr,
    server: Addr,
    id: u16,
    names: &ArrayVec<Name, MOST_NAMES>,
    link: &mut L,
    out: &mut K,
    tell: &mut T,
    items: u64,
) -> ServeEnd
    requires { length packet.old.area ≡ LARGEST_DATAGRAM }
    ensures resolves { Resolves (questions_of own server id names.now.items) items
        (streams L.Link K.Sink T.Sink link.old out.old tell.old)
        (streams L.Link K.Sink T.Sink link.new out.new tell.new) result }
    ensures area { length packet.new.area ≡ LARGEST_DATAGRAM }
{
    let asking = Asking { own, server, id };
    let names = names.as_slice();
    let mut run = Run::new(names.len());
    let end = ask(&mut run, packet, asking, names, link, out, items);
    match end {
        ServeEnd::LinkFault => ServeEnd::LinkFault,
        ServeEnd::WriteFault => ServeEnd::WriteFault,
        done => match report_all(names, run.answers.as_slice(), run.clock.given_up, tell) {
            Ok(()) => done,
            Err(Failed) => ServeEnd::WriteFault,
        },
    }
}
