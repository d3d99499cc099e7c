//! A device on Ethernet: the worked frames of `frame_device`, and each call for another link.

use crate::calls::{uip_drain, uip_input_frame_area, uip_periodic_frame};
use crate::ether_open::uip_open_ether;
use crate::handle::UipDevice;
use crate::open_close::uip_open;
use crate::status_calls::{
    uip_connection, uip_counter, uip_hits, uip_is_idle, uip_set_value, uip_ticks,
};
use crate::tests::{IMAGE, OWN, VALUE_IMAGE, answer, check_refused, close, made, no_device};
use c_calls::{BAD_ARGUMENT, HAS_DEVICE, OK, WRONG_LINK};
use frame_device::LARGEST_OUT;
use frame_device::worked::{
    ARP_REPLY, ARP_REQUEST, FAR_PING, FAR_REPLY, OWN_REQUEST, PING, PING_REPLY, ROUTER_REPLY,
    ROUTER_REQUEST,
};
use std::alloc::Global;
use std::process::Abort;

/// The hardware address of the node. The peer, 10.0.0.2, has 02:00:00:00:00:02.
pub(crate) const MAC: &[u8; 6] = &[2, 0, 0, 0, 0, 1];

/// The addresses from 10.0.0.0 to 10.0.0.255 are on the link.
pub(crate) const MASK: &[u8; 4] = &[255, 255, 255, 0];

/// The router, which has 02:00:00:00:00:09.
pub(crate) const ROUTER: &[u8; 4] = &[10, 0, 0, 254];

/// Opens a device on Ethernet with an image.
fn opened_with(rt: &impl Abort, alloc: Global, image: &'static [u8]) -> UipDevice {
    let mut device = no_device(alloc);
    assert_eq!(rt;
        uip_open_ether(alloc, &mut device, image, OWN, MAC, MASK, ROUTER).status,
        OK
    );
    device
}

/// Each call for frames is refused with this status.
pub(crate) fn check_frames_refused(
    rt: &impl Abort,
    alloc: Global,
    device: &mut UipDevice,
    status: u32,
) {
    let mut frame = [0; LARGEST_OUT];
    let refused = answer(status);
    assert_eq!(rt;
        uip_input_frame_area(alloc, device, &mut frame, 60),
        refused
    );
    assert_eq!(rt; uip_periodic_frame(alloc, device, 0, &mut frame), refused);
}

/// Passes a frame to the device, which must send this one, or none.
fn check_reply(rt: &impl Abort, alloc: Global, device: &mut UipDevice, sent: &[u8], reply: &[u8]) {
    let mut frame = [0; LARGEST_OUT];
    let len = sent.len();
    assert!(rt; len <= frame.len());
    frame[..len].copy_from_slice(sent);
    let done = uip_input_frame_area(alloc, device, &mut frame, len);
    assert_eq!(rt; done, made(len, reply.len()));
    assert!(rt; frame.starts_with(reply));
}

#[test]
fn arp_teaches_where_a_reply_goes(rt: HostRuntime) {
    let alloc = rt.alloc();
    let mut device = opened_with(&rt, alloc, IMAGE);
    check_reply(&rt, alloc, &mut device, &PING, &OWN_REQUEST);
    check_reply(&rt, alloc, &mut device, &ARP_REQUEST, &ARP_REPLY);
    check_reply(&rt, alloc, &mut device, &PING, &PING_REPLY);
    let mut to_another = PING;
    to_another[5] = 3;
    check_reply(&rt, alloc, &mut device, &to_another, b"");
    check_reply(&rt, alloc, &mut device, b"", b"");
    // Datagrams received and sent.
    for counter in [1, 2] {
        assert_eq!(rt; uip_counter(alloc, &mut device, counter).number, 2);
    }
    close(&rt, alloc, device);
}

#[test]
fn a_call_for_another_link_is_refused(rt: HostRuntime) {
    let alloc = rt.alloc();
    let mut device = opened_with(&rt, alloc, IMAGE);
    check_refused(&rt, alloc, &mut device, WRONG_LINK);
    let mut frame = [0; LARGEST_OUT];
    assert_eq!(rt;
        uip_drain(alloc, &mut device, &mut frame),
        answer(WRONG_LINK)
    );
    assert_eq!(rt; uip_open(alloc, &mut device, IMAGE, OWN).status, HAS_DEVICE);
    assert_eq!(rt;
        uip_open_ether(alloc, &mut device, IMAGE, OWN, MAC, MASK, ROUTER).status,
        HAS_DEVICE
    );
    let bad = answer(BAD_ARGUMENT);
    assert_eq!(rt; uip_periodic_frame(alloc, &mut device, 10, &mut frame), bad);
    assert_eq!(rt;
        uip_input_frame_area(alloc, &mut device, &mut frame, 1515),
        bad
    );
    assert_eq!(rt;
        uip_input_frame_area(alloc, &mut device, &mut frame[1..], 60),
        bad
    );
    assert_eq!(rt;
        uip_periodic_frame(alloc, &mut device, 0, &mut frame[1..]),
        bad
    );
    close(&rt, alloc, device);
}

#[test]
fn what_is_read_serves_ethernet(rt: HostRuntime) {
    let alloc = rt.alloc();
    let mut device = opened_with(&rt, alloc, VALUE_IMAGE);
    assert_eq!(rt; uip_set_value(alloc, &mut device, 3, b"21 C"), OK);
    let mut frame = [0; LARGEST_OUT];
    assert_eq!(rt;
        uip_periodic_frame(alloc, &mut device, 0, &mut frame),
        answer(OK)
    );
    assert_eq!(rt; uip_ticks(alloc, &mut device).number, 1);
    assert_eq!(rt; uip_is_idle(alloc, &mut device).number, 1);
    assert_eq!(rt; uip_hits(alloc, &mut device, b"/v.shtml").number, 0);
    assert_eq!(rt; uip_connection(alloc, &mut device, 0).state, 0);
    close(&rt, alloc, device);
}

#[test]
fn a_reply_to_another_network_goes_to_the_router(rt: HostRuntime) {
    let alloc = rt.alloc();
    let mut device = opened_with(&rt, alloc, IMAGE);
    check_reply(&rt, alloc, &mut device, &FAR_PING, &ROUTER_REQUEST);
    check_reply(&rt, alloc, &mut device, &ROUTER_REPLY, b"");
    check_reply(&rt, alloc, &mut device, &FAR_PING, &FAR_REPLY);
    close(&rt, alloc, device);
}
