use crate::calls::uip_input;
use crate::open_close::uip_open;
use crate::status_calls::{uip_hits, uip_query};
use crate::tests::{OWN, SYN, VALUE_IMAGE, close, made, no_device};
use c_calls::{BAD_ARGUMENT, NO_DEVICE, OK};
use c_pages::UipQuery;
use uip_device::LARGEST_TEXT;

/// The peer's request of `/v.shtml?lamp=1`, which acknowledges the SYN of the node.
const GET: &[u8; 72] = &[
    69, 0, 0, 72, 0, 1, 0, 0, 64, 6, 102, 173, 10, 0, 0, 2, 10, 0, 0, 1, 4, 1, 0, 80, 0, 0, 3, 233,
    0, 0, 0, 1, 80, 24, 32, 0, 77, 238, 0, 0, 71, 69, 84, 32, 47, 118, 46, 115, 104, 116, 109, 108,
    63, 108, 97, 109, 112, 61, 49, 32, 72, 84, 84, 80, 47, 49, 46, 48, 13, 10, 13, 10,
];

/// The text of a query is read with its hit. Another file has none, and too little room is refused.
#[test]
fn a_query_is_read(rt: HostRuntime) {
    let alloc = rt.alloc();
    let mut device = no_device(alloc);
    let mut out = [0; LARGEST_TEXT];
    let mut text = [b'.'; 64];
    let none = UipQuery {
        status: OK,
        hit: 0,
        len: 0,
    };
    let refused = UipQuery {
        status: NO_DEVICE,
        ..none
    };
    let asked = uip_query(alloc, &mut device, b"/v.shtml", &mut text);
    assert_eq!(rt; asked, refused);
    assert_eq!(rt; uip_open(alloc, &mut device, VALUE_IMAGE, OWN).status, OK);
    let asked = uip_query(alloc, &mut device, b"/v.shtml", &mut text);
    assert_eq!(rt; asked, none);
    let taken = uip_input(alloc, &mut device, SYN, &mut out);
    assert_eq!(rt; taken, made(40, 44));
    let taken = uip_input(alloc, &mut device, GET, &mut out);
    assert_eq!(rt; taken.consumed, GET.len());
    let asked = uip_query(alloc, &mut device, b"/w.shtml", &mut text);
    assert_eq!(rt; asked, none);
    assert!(rt; text == [b'.'; 64]);
    let asked = uip_query(alloc, &mut device, b"/v.shtml", &mut text);
    assert_eq!(rt;
        asked,
        UipQuery {
            hit: 1,
            len: 6,
            ..none
        }
    );
    assert!(rt; text.starts_with(b"lamp=1...."));
    assert_eq!(rt; uip_hits(alloc, &mut device, b"/v.shtml").number, 1);
    let asked = uip_query(alloc, &mut device, b"/v.shtml", &mut text[1..]);
    assert_eq!(rt; asked.status, BAD_ARGUMENT);
    close(&rt, alloc, device);
}
