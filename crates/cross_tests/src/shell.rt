//! The desk over a node: worked sessions datagram by datagram, and each of them with its input cut in two at every offset.

ghost use Rattle.std.specs.Prelude.{◌≤◌, length};

use crate::fields::desk as see_desk;
use crate::talking::{NODE, check_answer};
use app_events::App;
use file_tree::Site;
use httpd::Web;
use std::alloc::{AllocError, Global};
use std::mem::size_of;
use std::process::Abort;
use std::test::Fail;
use tcp_segment::{ACK, FIN, Out, PSH, RST, put_in};
use tcp_table::Conn;
use telnet_shell::{Desk, TELNET_PORT};
use uip_node::Node;
use uip_wire::{Addr, Port, Seq};

// A SYN to port 23, and its answer.
const SYN: &str =
    "45000028 00010000 400666CD 0A000002 0A000001 04010017 000003E8 00000000 50022000 73E00000";

const SYN_ACK: &str = "\
    4500002C 00010000 400666C9 0A000001 0A000002 00170401 00000000 000003E9 601205B4 765F0000 \
    020405B4";

// `ticks` CR LF, and the reply at tick 0.
const TICKS: &str = "\
    4500002F 00010000 400666C6 0A000002 0A000001 04010017 000003E9 00000001 50182000 1EDF0000 \
    7469636B 730D0A";

const TICKS_SAID: &str = "\
    45000036 00020000 400666BE 0A000001 0A000002 00170401 00000001 000003F0 501805B4 A2240000 \
    20202020 20202020 20300D0A 3E20";

// An offer of an option (RFC 854) and `quit` LF, the reply, its acknowledgement, and the FIN.
const QUIT: &str = "\
    45000030 00010000 400666C5 0A000002 0A000001 04010017 000003E9 00000001 50182000 88DF0000 \
    FFFB0171 7569740A";

const QUIT_SAID: &str = "\
    45000030 00020000 400666C4 0A000001 0A000002 00170401 00000001 000003F1 501805B4 06340000 \
    FFFE0162 79650D0A";

const QUIT_TAKEN: &str =
    "45000028 00010000 400666CD 0A000002 0A000001 04010017 000003F1 00000009 50102000 73C00000";

const FIN_SAID: &str =
    "45000028 00030000 400666CB 0A000001 0A000002 00170401 00000009 000003F1 501105B4 8E0B0000";

// The reply to `help`.
const HELPED: &[u8] = b"help stats conns ticks quit\r\n> ";

// The headers of a datagram with 33 lines `help` LF, such a line, and the RST that is the reply.
const HELPS_HEAD: &str =
    "450000CD 00010000 40066628 0A000002 0A000001 04010017 000003E9 00000001 50182000 49020000";

const HELP: &str = " 68656C70 0A";

const RESET: &str =
    "45000028 00020000 400666CC 0A000001 0A000002 00170401 00000001 0000048E 50140000 93270000";

const CLIENT: Addr = Addr([10, 0, 0, 2]);

/// Returns the site without files, for a server.
fn empty_web(alloc: Global) -> Result<Web, Fail> {
    Ok(Web::new(alloc, Site::empty(alloc)).ok().ok_or("no memory")?)
}

/// Returns a text repeated `count` times.
fn repeated(alloc: Global, text: &[u8], count: usize) -> Result<Vec<u8>, AllocError> {
    let mut all = Vec::new(alloc);
    for _ in 0..count {
        all.extend_from_slice(text)?;
    }
    Ok(all)
}

/// Opens, sends something, and acknowledges the reply: each datagram with its answer.
fn check_session(
    rt: &impl Abort,
    alloc: Global,
    (asked, output): (&str, &str),
    taken: Option<(&str, &str)>,
) -> Result<(), Fail> {
    let Ok(mut node) = Node::<Desk>::new(alloc, NODE, empty_web(alloc)?) else {
        return Err("no memory".into());
    };
    check_answer(rt, alloc, &mut node, SYN, SYN_ACK)?;
    check_answer(rt, alloc, &mut node, asked, output)?;
    if let Some((taken, closed)) = taken {
        check_answer(rt, alloc, &mut node, taken, closed)?;
    }
    see_desk(&node.conn(0).app);
    Ok(())
}

#[test]
fn worked_sessions_over_a_node(rt: HostRuntime) -> Result<(), Fail> {
    let alloc = rt.alloc();
    let mut helps = String::from_str(alloc, HELPS_HEAD)?;
    for _ in 0..33 {
        helps.push_str(HELP)?;
    }
    check_session(&rt, alloc, (TICKS, TICKS_SAID), None)?;
    check_session(&rt, alloc, (QUIT, QUIT_SAID), Some((QUIT_TAKEN, FIN_SAID)))?;
    check_session(&rt, alloc, (&helps, RESET), None)
}

/// A peer that has opened: the numbers that it sends and expects next, what it received, and the flags of the last segment.
#[derive(Drop)]
struct Peer {
    seq: u32,
    ack: u32,
    heard: Vec<u8>,
    flags: u8,
}

impl Peer {
    /// Receives a datagram of the node, whose headers have 40 bytes.
    fn receive(&mut self, datagram: &[u8]) -> Result<(), AllocError> {
        if datagram.len() < 40 {
            return Ok(());
        }
        let text = &datagram[40..];
        self.flags = datagram[33];
        self.ack = self
            .ack
            .wrapping_add(u32::try_from(text.len()).unwrap_or(0));
        self.heard.extend_from_slice(text)
    }

    /// Sends a piece after an acknowledgement of all that was received, and receives the reply of the node.
    fn write_out<A: App>(&mut self, node: &mut Node<A>, piece: &[u8]) -> Result<(), AllocError>
        requires short { length piece.now ≤ 1460 }
    {
        let mut area = [0u8; 1500];
        area[40..40 + piece.len()].copy_from_slice(piece);
        let out = Out {
            source: CLIENT,
            target: NODE,
            from: Port(1025),
            to: Port(TELNET_PORT),
            seq: Seq(self.seq),
            ack: Seq(self.ack),
            flags: ACK + PSH,
            window: 8192,
            mss: None,
            len: piece.len(),
            id: 1,
        };
        let len = put_in(&mut area, &out);
        self.seq = self.seq.wrapping_add(piece.len() as u32);
        match node.input(&area[..len]) {
            Some(_) => self.receive(node.packet()),
            None => Ok(()),
        }
    }
}

/// Returns what is received in a session that is cut in two, the first part acknowledged before the rest is sent, and the last
/// flags.
fn session(rt: &impl Abort, alloc: Global, output: &[u8], cut: usize) -> Result<Peer, Fail>
    requires within { cut ≤ length output.now }
    requires short { length output.now ≤ 1460 }
{
    let Ok(mut node) = Node::<Desk>::new(alloc, NODE, empty_web(alloc)?) else {
        return Err("no memory".into());
    };
    let mut peer = Peer {
        seq: 1001,
        ack: 1,
        heard: Vec::new(alloc),
        flags: 0,
    };
    check_answer(rt, alloc, &mut node, SYN, SYN_ACK)?;
    peer.write_out(&mut node, &output[..cut])?;
    peer.write_out(&mut node, &output[cut..])?;
    peer.write_out(&mut node, b"")?;
    Ok(peer)
}

/// Checks a session at every cut: what is received, and the last flags.
fn check_cuts(
    rt: &impl Abort,
    alloc: Global,
    output: &[u8],
    heard: &[u8],
    flags: u8,
) -> Result<(), Fail>
    requires { length output.now ≤ 1460 }
{
    for cut in 0..=output.len() {
        let peer = session(rt, alloc, output, cut)?;
        assert_eq!(rt; peer.heard.as_slice(), heard);
        assert_eq!(rt; peer.flags, flags);
    }
    Ok(())
}

#[test]
fn sessions_go_so_at_every_cut(rt: HostRuntime) -> Result<(), Fail> {
    let alloc = rt.alloc();
    check_cuts(&rt, alloc, b"ticks\r\n", b"         0\r\n> ", ACK + PSH)?;
    check_cuts(
        &rt,
        alloc,
        b"\xff\xfb\x01quit\n",
        b"\xff\xfe\x01bye\r\n",
        ACK + FIN,
    )?;
    check_cuts(
        &rt,
        alloc,
        b"\xff\xff\n\xff\xfd\x18",
        b"?\r\n> \xff\xfc\x18",
        ACK + PSH,
    )
}

/// With 33 lines in one piece the connection is given up. If a prefix of them was answered and acknowledged before the rest
/// arrived, all are answered.
#[test]
fn a_command_too_many_at_every_cut(rt: HostRuntime) -> Result<(), Fail> {
    let helps = repeated(rt.alloc(), b"help\n", 33)?;
    let all = repeated(rt.alloc(), HELPED, 33)?;
    assert_eq!(rt; helps.len(), 165);
    for cut in 0..=165 {
        let peer = session(&rt, rt.alloc(), helps.as_slice(), cut)?;
        if cut < 5 || cut == 165 {
            assert_eq!(rt; peer.flags, ACK + RST);
            assert_eq!(rt; peer.heard.len(), 0);
        } else {
            assert_eq!(rt; peer.heard.as_slice(), all.as_slice());
        }
    }
    Ok(())
}

#[test]
fn a_connection_of_the_desk_is_small(rt: HostRuntime) {
    assert!(rt; size_of::<Conn<Desk>>() <= 512);
}
