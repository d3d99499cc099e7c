//! Each call, successful and refused, with ample memory.

ghost use Rattle.std.specs.Prelude.{◌≡◌, None};

use crate::calls::{uip_input_frame_area, uip_listen, uip_periodic_frame, uip_read, uip_write};
use crate::guard_calls::{uip_guard_counter, uip_protect};
use crate::handle::UipDevice;
use crate::held::Held;
use crate::open_close::{uip_close, uip_open_ether};
use crate::status_calls::{
    uip_connection, uip_counter, uip_hits, uip_is_idle, uip_query, uip_set_value, uip_ticks,
};
use c_calls::{
    BAD_ARGUMENT, BAD_IMAGE, HAS_DEVICE, NO_DEVICE, NOT_READY, OK, UipNumber, UipReceived,
    UipResult,
};
use c_pages::{UipOpened, UipQuery};
use frame_device::LARGEST_OUT;
use frame_device::worked::{
    ARP_REPLY, ARP_REQUEST, FAR_PING, FAR_REPLY, PING, PING_REPLY, ROUTER_REPLY, ROUTER_REQUEST,
};
use std::alloc::Global;
use std::process::Abort;

/// An image with a script that shows value 3.
const IMAGE: &[u8] = b"UIPSITE1\0\x01\x08/v.shtml\0\0\0\x0ea=%! value 3\n!";

const OWN: &[u8; 4] = &[10, 0, 0, 1];

const MAC: &[u8; 6] = &[2, 0, 0, 0, 0, 1];

/// The addresses from 10.0.0.0 to 10.0.0.255 are on the link.
const MASK: &[u8; 4] = &[255, 255, 255, 0];

/// The router, which has 02:00:00:00:00:09.
const ROUTER: &[u8; 4] = &[10, 0, 0, 254];

/// The header of each frame of the peer, 02:00:00:00:00:02 (RFC 894).
const HEADER: [u8; 14] = [2, 0, 0, 0, 0, 1, 2, 0, 0, 0, 0, 2, 8, 0];

/// A SYN from 10.0.0.2 to the port of the web (RFC 793).
const WEB_SYN: &[u8] = &[
    69, 0, 0, 40, 0, 1, 0, 0, 64, 6, 102, 205, 10, 0, 0, 2, 10, 0, 0, 1, 4, 1, 0, 80, 0, 0, 3, 232,
    0, 0, 0, 0, 80, 2, 32, 0, 115, 167, 0, 0,
];

/// The same from the own address of the node.
const FOREIGN: &[u8] = &[
    69, 0, 0, 40, 0, 1, 0, 0, 64, 6, 102, 206, 10, 0, 0, 1, 10, 0, 0, 1, 4, 1, 0, 80, 0, 0, 3, 232,
    0, 0, 0, 0, 80, 2, 32, 0, 115, 168, 0, 0,
];

/// The peer's request of `/v.shtml?lamp=1`, which acknowledges the SYN of the node.
const GET: &[u8] = &[
    69, 0, 0, 72, 0, 1, 0, 0, 64, 6, 102, 173, 10, 0, 0, 2, 10, 0, 0, 1, 4, 1, 0, 80, 0, 0, 3, 233,
    0, 0, 0, 1, 80, 24, 32, 0, 77, 238, 0, 0, 71, 69, 84, 32, 47, 118, 46, 115, 104, 116, 109, 108,
    63, 108, 97, 109, 112, 61, 49, 32, 72, 84, 84, 80, 47, 49, 46, 48, 13, 10, 13, 10,
];

/// A SYN to port 5025.
const CONSOLE_SYN: &[u8] = &[
    69, 0, 0, 40, 0, 1, 0, 0, 64, 6, 102, 205, 10, 0, 0, 2, 10, 0, 0, 1, 4, 1, 19, 161, 0, 0, 3,
    232, 0, 0, 0, 0, 80, 2, 32, 0, 96, 86, 0, 0,
];

/// The line `get`, which acknowledges the SYN of the node.
const LINE: &[u8] = &[
    69, 0, 0, 44, 0, 1, 0, 0, 64, 6, 102, 201, 10, 0, 0, 2, 10, 0, 0, 1, 4, 1, 19, 161, 0, 0, 3,
    233, 0, 0, 0, 1, 80, 24, 32, 0, 132, 202, 0, 0, 103, 101, 116, 10,
];

/// Returns a handle without a device.
fn no_device(alloc: Global) -> UipDevice {
    UipDevice {
        is_open: 0,
        held: Held::none(alloc),
    }
}

/// Discards a handle without a device.
fn discard(device: UipDevice)
    requires { device.held.device ≡ None }
{
    let UipDevice { is_open: _, held } = device;
    let _alloc = held.into_alloc();
}

/// Closes a device, and discards its handle.
fn close(rt: &impl Abort, alloc: Global, mut device: UipDevice) {
    assert_eq!(rt; uip_close(alloc, &mut device), OK);
    discard(device);
}

/// Returns a handle with a device, which knows the peer.
fn opened(rt: &impl Abort, alloc: Global) -> UipDevice {
    let mut device = no_device(alloc);
    let opened = uip_open_ether(alloc, &mut device, IMAGE, OWN, MAC, MASK, ROUTER);
    assert_eq!(rt; opened.status, OK);
    check_reply(rt, alloc, &mut device, &ARP_REQUEST, &ARP_REPLY);
    device
}

/// Passes a frame to the device, which must send this one, or none.
fn check_reply(
    rt: &impl Abort,
    alloc: Global,
    device: &mut UipDevice,
    sent: &[u8; 42],
    reply: &[u8],
) {
    let mut frame = [0; LARGEST_OUT];
    frame[..42].copy_from_slice(sent);
    assert_eq!(rt;
        uip_input_frame_area(alloc, device, &mut frame, 42),
        UipResult::done(42, reply.len(), None)
    );
    assert!(rt; frame.starts_with(reply));
}

/// Passes a datagram of the peer to the device, which must send a frame of this length.
fn check_datagram(
    rt: &impl Abort,
    alloc: Global,
    device: &mut UipDevice,
    datagram: &[u8],
    written: usize,
) {
    let mut frame = [0; LARGEST_OUT];
    let len = datagram.len();
    assert!(rt; len <= 1500);
    frame[..14].copy_from_slice(&HEADER);
    frame[14..14 + len].copy_from_slice(datagram);
    assert_eq!(rt;
        uip_input_frame_area(alloc, device, &mut frame, 14 + len),
        UipResult::done(14 + len, written, None)
    );
}

/// Each call that changes a device is refused with this status.
fn check_refused(rt: &impl Abort, alloc: Global, device: &mut UipDevice, status: u32) {
    let mut frame = [0; LARGEST_OUT];
    let refused = UipResult::refused(status);
    assert_eq!(rt;
        uip_input_frame_area(alloc, device, &mut frame, 42),
        refused
    );
    assert_eq!(rt; uip_periodic_frame(alloc, device, 9, &mut frame), refused);
    assert_eq!(rt;
        uip_write(alloc, device, 9, 0, b"bye\n", 1, &mut frame),
        refused
    );
    assert_eq!(rt; uip_set_value(alloc, device, 15, b"7"), status);
    assert_eq!(rt; uip_listen(alloc, device, 5025), status);
}

/// The connection in slot 0 refuses a message that answers this many received bytes.
fn check_not_ready(rt: &impl Abort, alloc: Global, device: &mut UipDevice, taken: usize) {
    let mut frame = [0; LARGEST_OUT];
    assert_eq!(rt;
        uip_write(alloc, device, 0, taken, b"42\n", 0, &mut frame),
        UipResult::refused(NOT_READY)
    );
}

/// Returns what is read of a connection: whether it is ready, its port, and how many bytes are pending.
fn received(ready: u32, port: u32, len: usize) -> UipReceived {
    UipReceived {
        status: OK,
        ready,
        port,
        len,
    }
}

#[test]
fn a_secret_is_set_once_and_in_time(rt: HostRuntime) {
    let alloc = rt.alloc();
    let mut device = no_device(alloc);
    assert_eq!(rt; uip_protect(alloc, &mut device, &[7; 16]), NO_DEVICE);
    let opened_as = uip_open_ether(alloc, &mut device, IMAGE, OWN, MAC, MASK, ROUTER);
    assert_eq!(rt; opened_as.status, OK);
    assert_eq!(rt; uip_protect(alloc, &mut device, &[7; 16]), OK);
    assert_eq!(rt; uip_protect(alloc, &mut device, &[8; 16]), BAD_ARGUMENT);
    close(&rt, alloc, device);
    let mut used = opened(&rt, alloc);
    assert_eq!(rt; uip_protect(alloc, &mut used, &[7; 16]), BAD_ARGUMENT);
    close(&rt, alloc, used);
}

#[test]
fn what_the_guard_drops_is_counted(rt: HostRuntime) {
    let alloc = rt.alloc();
    let mut device = opened(&rt, alloc);
    check_datagram(&rt, alloc, &mut device, FOREIGN, 0);
    for (number, count) in [(1, 1), (2, 0)] {
        assert_eq!(rt;
            uip_guard_counter(alloc, &mut device, number),
            UipNumber::read(count)
        );
    }
    close(&rt, alloc, device);
}

#[test]
fn a_handle_without_a_device_refuses_all(rt: HostRuntime) {
    let alloc = rt.alloc();
    let mut device = no_device(alloc);
    let mut area = [0; 64];
    check_refused(&rt, alloc, &mut device, NO_DEVICE);
    assert_eq!(rt; uip_read(alloc, &mut device, 0, &mut []).status, NO_DEVICE);
    assert_eq!(rt; uip_ticks(alloc, &mut device).status, NO_DEVICE);
    assert_eq!(rt; uip_counter(alloc, &mut device, 20).status, NO_DEVICE);
    assert_eq!(rt; uip_guard_counter(alloc, &mut device, 1).status, NO_DEVICE);
    assert_eq!(rt; uip_is_idle(alloc, &mut device).status, NO_DEVICE);
    assert_eq!(rt; uip_hits(alloc, &mut device, b"/v.shtml").status, NO_DEVICE);
    assert_eq!(rt; uip_connection(alloc, &mut device, 9).status, NO_DEVICE);
    assert_eq!(rt;
        uip_query(alloc, &mut device, b"/v.shtml", &mut area).status,
        NO_DEVICE
    );
    assert_eq!(rt; uip_close(alloc, &mut device), NO_DEVICE);
    discard(device);
}

/// The first fault of an image, by its word and its entry.
#[test]
fn a_bad_image_is_reported(rt: HostRuntime) {
    let alloc = rt.alloc();
    let mut device = no_device(alloc);
    let bad = UipOpened {
        status: BAD_IMAGE,
        entry: 0,
        word: *b"magic\0\0\0",
    };
    let image = b"UIPSITE3\0\0";
    assert_eq!(rt;
        uip_open_ether(alloc, &mut device, image, OWN, MAC, MASK, ROUTER),
        bad
    );
    discard(device);
}

#[test]
fn a_device_answers_ping_and_has_no_connection(rt: HostRuntime) {
    let alloc = rt.alloc();
    let mut device = opened(&rt, alloc);
    assert_eq!(rt;
        uip_open_ether(alloc, &mut device, IMAGE, OWN, MAC, MASK, ROUTER).status,
        HAS_DEVICE
    );
    check_reply(&rt, alloc, &mut device, &PING, &PING_REPLY);
    let mut frame = [0; LARGEST_OUT];
    assert_eq!(rt;
        uip_periodic_frame(alloc, &mut device, 0, &mut frame),
        UipResult::done(0, 0, None)
    );
    assert_eq!(rt;
        uip_read(alloc, &mut device, 9, &mut frame),
        received(0, 0, 0)
    );
    assert_eq!(rt;
        uip_write(alloc, &mut device, 9, 0, b"bye\n", 1, &mut frame),
        UipResult::refused(NOT_READY)
    );
    assert_eq!(rt; uip_ticks(alloc, &mut device).number, 1);
    assert_eq!(rt; uip_is_idle(alloc, &mut device).number, 1);
    // Datagrams received and sent, and echo replies.
    for counter in [1, 2, 12] {
        assert_eq!(rt; uip_counter(alloc, &mut device, counter).number, 1);
    }
    close(&rt, alloc, device);
}

#[test]
fn a_reply_to_another_network_goes_to_the_router(rt: HostRuntime) {
    let alloc = rt.alloc();
    let mut device = opened(&rt, alloc);
    for (sent, reply) in [
        (&FAR_PING, ROUTER_REQUEST.as_slice()),
        (&ROUTER_REPLY, b"".as_slice()),
        (&FAR_PING, FAR_REPLY.as_slice()),
    ] {
        check_reply(&rt, alloc, &mut device, sent, reply);
    }
    close(&rt, alloc, device);
}

/// A page shows a value, and its request brings a hit and a query. The connection is none of the program's application.
#[test]
fn a_page_is_served(rt: HostRuntime) {
    let alloc = rt.alloc();
    let mut device = opened(&rt, alloc);
    let mut text = [b'.'; 64];
    assert_eq!(rt; uip_set_value(alloc, &mut device, 3, b"21 C"), OK);
    check_datagram(&rt, alloc, &mut device, WEB_SYN, 58);
    check_datagram(&rt, alloc, &mut device, GET, 136);
    assert_eq!(rt; uip_hits(alloc, &mut device, b"/v.shtml").number, 1);
    assert_eq!(rt; uip_hits(alloc, &mut device, b"/w.shtml").number, 0);
    let query = UipQuery {
        status: OK,
        hit: 1,
        len: 6,
    };
    assert_eq!(rt;
        uip_query(alloc, &mut device, b"/v.shtml", &mut text),
        query
    );
    assert!(rt; text.starts_with(b"lamp=1...."));
    assert_eq!(rt; uip_connection(alloc, &mut device, 0).state, 2);
    assert_eq!(rt;
        uip_read(alloc, &mut device, 0, &mut text),
        received(0, 0, 0)
    );
    check_not_ready(&rt, alloc, &mut device, 0);
    close(&rt, alloc, device);
}

#[test]
fn a_line_is_answered_once_its_port_is_open(rt: HostRuntime) {
    let alloc = rt.alloc();
    let mut device = opened(&rt, alloc);
    check_datagram(&rt, alloc, &mut device, CONSOLE_SYN, 0);
    assert_eq!(rt; uip_listen(alloc, &mut device, 5025), OK);
    check_datagram(&rt, alloc, &mut device, CONSOLE_SYN, 58);
    check_datagram(&rt, alloc, &mut device, LINE, 54);
    let mut line = [b'.'; 8];
    assert_eq!(rt;
        uip_read(alloc, &mut device, 0, &mut line),
        received(1, 5025, 4)
    );
    assert!(rt; line == *b"get\n....");
    check_not_ready(&rt, alloc, &mut device, 5);
    let mut frame = [0; LARGEST_OUT];
    assert_eq!(rt;
        uip_write(alloc, &mut device, 0, 4, b"42\n", 0, &mut frame),
        UipResult::done(0, 57, None)
    );
    assert!(rt; frame[54..].starts_with(b"42\n"));
    assert_eq!(rt;
        uip_read(alloc, &mut device, 0, &mut line),
        received(0, 5025, 0)
    );
    assert_eq!(rt; uip_hits(alloc, &mut device, b"/v.shtml").number, 0);
    close(&rt, alloc, device);
}

#[test]
fn a_bad_argument_is_refused(rt: HostRuntime) {
    let alloc = rt.alloc();
    let mut device = opened(&rt, alloc);
    let mut frame = [0; LARGEST_OUT];
    let refused = UipResult::refused(BAD_ARGUMENT);
    assert_eq!(rt;
        uip_input_frame_area(alloc, &mut device, &mut frame, 1515),
        refused
    );
    assert_eq!(rt;
        uip_periodic_frame(alloc, &mut device, 10, &mut frame),
        refused
    );
    assert_eq!(rt;
        uip_read(alloc, &mut device, 10, &mut frame).status,
        BAD_ARGUMENT
    );
    assert_eq!(rt;
        uip_write(alloc, &mut device, 0, 0, &[0; 261], 0, &mut frame),
        refused
    );
    assert_eq!(rt;
        uip_write(alloc, &mut device, 0, 0, b"", 0, &mut frame[1..]),
        refused
    );
    assert_eq!(rt; uip_set_value(alloc, &mut device, 16, b"7"), BAD_ARGUMENT);
    for port in [502, 23, 7, 9] {
        assert_eq!(rt; uip_listen(alloc, &mut device, port), OK);
    }
    for port in [0, 80, 65536, 5025] {
        assert_eq!(rt; uip_listen(alloc, &mut device, port), BAD_ARGUMENT);
    }
    assert_eq!(rt;
        uip_set_value(alloc, &mut device, 0, &[b'7'; 33]),
        BAD_ARGUMENT
    );
    assert_eq!(rt; uip_counter(alloc, &mut device, 0).status, BAD_ARGUMENT);
    assert_eq!(rt; uip_counter(alloc, &mut device, 21).status, BAD_ARGUMENT);
    for number in [0, 3] {
        assert_eq!(rt;
            uip_guard_counter(alloc, &mut device, number),
            UipNumber::unread(BAD_ARGUMENT)
        );
    }
    assert_eq!(rt; uip_connection(alloc, &mut device, 10).status, BAD_ARGUMENT);
    assert_eq!(rt;
        uip_query(alloc, &mut device, b"/v.shtml", &mut [0; 63]).status,
        BAD_ARGUMENT
    );
    close(&rt, alloc, device);
}
