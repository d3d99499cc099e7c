//! The web server over a node: pages that no contract of one crate alone determines.

use crate::fields::node as see_fields;
use crate::talking::{REQUEST, check_answer, opened};
use app_events::State;
use file_tree::Site;
use httpd::{Httpd, Web};
use std::alloc::Global;
use std::mem::size_of;
use std::test::Fail;
use tcp_table::Conn;

// The acknowledgement of one byte, which decides nothing.
const BYTE_TAKEN: &str =
    "45000028 00020000 400666CC 0A000001 0A000002 00500401 00000001 000003EA 501005B4 8DE20000";

// `GET /h.shtml HTTP/1.0` CR LF, and the replies: the header, then the hit count, then a FIN.
const GET: &str = "\
    4500003F 00020000 400666B5 0A000002 0A000001 04010050 000003E9 00000001 50182000 744F0000 \
    47455420 2F682E73 68746D6C 20485454 502F312E 300D0A";

const HEADER: &str = "\
    45000078 00020000 4006667C 0A000001 0A000002 00500401 00000001 00000400 501805B4 EB370000 \
    48545450 2F312E30 20323030 204F4B0D 0A536572 7665723A 20754950 2F312E30 0D0A436F 6E6E6563 \
    74696F6E 3A20636C 6F73650D 0A436F6E 74656E74 2D747970 653A2074 6578742F 68746D6C 0D0A0D0A";

const HEADER_TAKEN: &str =
    "45000028 00030000 400666CB 0A000002 0A000001 04010050 00000400 00000051 50102000 73300000";

const HITS: &str = "\
    45000032 00030000 400666C1 0A000001 0A000002 00500401 00000051 00000400 501805B4 ECB80000 \
    20202020 20202020 2031";

const HITS_TAKEN: &str =
    "45000028 00040000 400666CA 0A000002 0A000001 04010050 00000400 0000005B 50102000 73260000";

const FIN: &str =
    "45000028 00040000 400666CA 0A000001 0A000002 00500401 0000005B 00000400 501105B4 8D710000";

const HELLO: &[u8] = b"UIPSITE1\0\x01\x0b/index.html\0\0\0\x06hello\n";

const COUNTED: &[u8] = b"UIPSITE1\0\x01\x08/h.shtml\0\0\0\x17%! file-stats /h.shtml\n";

/// Returns the site of an image, for a server.
fn web_of(alloc: Global, image: &[u8]) -> Result<Web, Fail> {
    let site = Site::read(alloc, image).ok().ok_or("a bad image")?;
    Ok(Web::new(alloc, site).ok().ok_or("no memory")?)
}

#[test]
fn a_byte_of_a_request_is_taken(rt: HostRuntime) -> Result<(), Fail> {
    let alloc = rt.alloc();
    let mut node = opened::<Httpd>(&rt, alloc, web_of(alloc, HELLO)?)?;
    check_answer(&rt, alloc, &mut node, REQUEST, BYTE_TAKEN)
}

/// [add: piece] A page that has the piece.
#[test]
fn a_page_with_a_hit_count_is_served_and_ended(rt: HostRuntime) -> Result<(), Fail> {
    let alloc = rt.alloc();
    let mut node = opened::<Httpd>(&rt, alloc, web_of(alloc, COUNTED)?)?;
    check_answer(&rt, alloc, &mut node, GET, HEADER)?;
    check_answer(&rt, alloc, &mut node, HEADER_TAKEN, HITS)?;
    check_answer(&rt, alloc, &mut node, HITS_TAKEN, FIN)?;
    assert!(rt; node.conn(0).state == State::FinWait1);
    assert!(rt; node.conn(1).state == State::Closed);
    assert!(rt; node.shared().hits.as_slice() == [1].as_slice());
    see_fields(&node);
    Ok(())
}

#[test]
fn a_connection_is_small(rt: HostRuntime) {
    assert!(rt; size_of::<Conn<Httpd>>() <= 448);
}
