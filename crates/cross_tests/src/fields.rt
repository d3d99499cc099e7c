//! The values of a running server contain what their fields state, and no copy of what was sent. Each pattern names exactly the
//! fields of its types, so a further field or variant does not compile here.

use app_events::RowList;
use file_tree::{FileId, Place, Site};
use generators::Capture;
use httpd::{Httpd, Stage, Thread, Web};
use packet_buffer::Packet;
use protosocket::{LineIn, Stops};
use rexmit_timer::Timer;
use tcp_table::{Conn, Table};
use telnet_shell::{Desk, Shell};
use uip_node::Node;

pub(crate) fn node(value: &Node<Httpd>) {
    let Node {
        addr: _,
        packet: Packet { area: _, len: _ },
        table: Table { conns, iss: _ },
        net: _,
        ticks: _,
        ident: _,
        shared: Web {
            site: Site {
                image: _,
                files,
                order: _,
            },
            hits: _,
        },
    } = value;
    conns.iter().for_each(conn);
    files.iter().for_each(place);
}

fn conn(value: &Conn<Httpd>) {
    let Conn {
        state: _,
        peer: _,
        peer_port: _,
        own_port: _,
        rcv_nxt: _,
        snd_nxt: _,
        len: _,
        mss: _,
        initial_mss: _,
        timer: Timer { count: _, tries: _ },
        app,
    } = value;
    httpd(app);
}

fn place(value: &Place) {
    let Place {
        name_at: _,
        name_len: _,
        kind_at: _,
        kind_len: _,
        at: _,
        len: _,
        greatest: _,
    } = value;
}

/// [add: piece] The fields of its variant of `Thread`.
fn httpd(value: &Httpd) {
    let Httpd {
        stage: Stage::Method | Stage::Target | Stage::Reply { found: _ } | Stage::Refused,
        line: LineIn {
            name: _,
            over: _,
            query: _,
            done: _,
            stops: Stops::Space | Stops::SpaceOrLine,
        },
        thread: Thread::Head { at: _ }
        | Thread::Kind { at: _ }
        | Thread::Body { at: _ }
        | Thread::Inside {
            next: _,
            file: FileId(_),
            at: _,
        }
        | Thread::Making { next: _, at: _ }
        | Thread::End,
        capture: record,
        polls: _,
    } = value;
    capture(record);
}

/// [add: function] The variant of its capture record.
fn capture(value: &Capture) {
    let (Capture::Empty
    | Capture::Hits(_)
    | Capture::Ticks(_)
    | Capture::Net(_)
    | Capture::Rows(RowList { list: _ })) = value;
}

/// A desk is one of its two applications, and nothing else.
/// [add: application] A pattern that names each field of its value, as these.
pub(crate) fn desk(value: &Desk) {
    match value {
        Desk::Web(web) => httpd(web),
        Desk::Shell(
            Shell {
                line: _,
                over: _,
                iac: _,
                queue: _,
                lost: _,
                done: _,
                capture: record,
                at: _,
                polls: _,
            },
        ) => capture(record),
    }
}
