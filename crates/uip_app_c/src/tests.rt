//! Each call, successful and refused, with ample memory.

ghost use Rattle.std.specs.Prelude.{◌≡◌, None};

use crate::calls::{
    uip_app_input_frame_area, uip_app_listen, uip_app_periodic_frame, uip_app_read, uip_app_write,
};
use crate::guard_calls::{uip_app_guard_counter, uip_app_protect};
use crate::handle::AppDevice;
use crate::held::Held;
use crate::open_close::{uip_app_close, uip_app_open};
use c_calls::{
    BAD_ARGUMENT, HAS_DEVICE, NO_DEVICE, NOT_READY, OK, UipNumber, UipReceived, UipResult,
};
use frame_device::LARGEST_OUT;
use frame_device::worked::{
    ARP_REPLY, ARP_REQUEST, FAR_PING, FAR_REPLY, ROUTER_REPLY, ROUTER_REQUEST,
};
use std::alloc::Global;
use std::process::Abort;

const OWN: &[u8; 4] = &[10, 0, 0, 1];

const MAC: &[u8; 6] = &[2, 0, 0, 0, 0, 1];

/// The addresses from 10.0.0.0 to 10.0.0.255 are on the link.
const MASK: &[u8; 4] = &[255, 255, 255, 0];

/// The router, which has 02:00:00:00:00:09.
const ROUTER: &[u8; 4] = &[10, 0, 0, 254];

/// A SYN from 10.0.0.2, which has 02:00:00:00:00:02, to port 5025 (RFC 793).
const SYN: [u8; 54] = [
    2, 0, 0, 0, 0, 1, 2, 0, 0, 0, 0, 2, 8, 0, 69, 0, 0, 40, 0, 1, 0, 0, 64, 6, 102, 205, 10, 0, 0,
    2, 10, 0, 0, 1, 4, 1, 19, 161, 0, 0, 3, 232, 0, 0, 0, 0, 80, 2, 32, 0, 96, 86, 0, 0,
];

/// Returns a handle without a device.
fn no_device(alloc: Global) -> AppDevice {
    AppDevice {
        is_open: 0,
        held: Held::none(alloc),
    }
}

/// Discards a handle without a device.
fn discard(device: AppDevice)
    requires { device.held.device ≡ None }
{
    let AppDevice { is_open: _, held } = device;
    let _alloc = held.into_alloc();
}

/// Closes a device, and discards its handle.
fn close(rt: &impl Abort, alloc: Global, mut device: AppDevice) {
    assert_eq!(rt; uip_app_close(alloc, &mut device), OK);
    discard(device);
}

/// Returns a handle with a device.
fn opened(rt: &impl Abort, alloc: Global) -> AppDevice {
    let mut device = no_device(alloc);
    assert_eq!(rt;
        uip_app_open(alloc, &mut device, OWN, MAC, MASK, ROUTER),
        OK
    );
    device
}

/// Passes a frame to the device, which must send this one, or none.
fn check_reply(
    rt: &impl Abort,
    alloc: Global,
    device: &mut AppDevice,
    sent: &[u8; 42],
    reply: &[u8],
) {
    let mut frame = [0; LARGEST_OUT];
    frame[..42].copy_from_slice(sent);
    assert_eq!(rt;
        uip_app_input_frame_area(alloc, device, &mut frame, 42),
        UipResult::done(42, reply.len(), None)
    );
    assert!(rt; frame.starts_with(reply));
}

/// Each call that changes a device is refused with this status.
fn check_refused(rt: &impl Abort, alloc: Global, device: &mut AppDevice, status: u32) {
    let mut frame = [0; LARGEST_OUT];
    let refused = UipResult::refused(status);
    assert_eq!(rt;
        uip_app_input_frame_area(alloc, device, &mut frame, 42),
        refused
    );
    assert_eq!(rt;
        uip_app_periodic_frame(alloc, device, 9, &mut frame),
        refused
    );
    assert_eq!(rt;
        uip_app_write(alloc, device, 9, 0, b"bye\n", 1, &mut frame),
        refused
    );
    assert_eq!(rt; uip_app_listen(alloc, device, 5025), status);
}

#[test]
fn a_secret_is_set_once_and_in_time(rt: HostRuntime) {
    let alloc = rt.alloc();
    let mut device = no_device(alloc);
    assert_eq!(rt; uip_app_protect(alloc, &mut device, &[7; 16]), NO_DEVICE);
    discard(device);
    let mut device = opened(&rt, alloc);
    assert_eq!(rt; uip_app_protect(alloc, &mut device, &[7; 16]), OK);
    assert_eq!(rt; uip_app_protect(alloc, &mut device, &[8; 16]), BAD_ARGUMENT);
    close(&rt, alloc, device);
    let mut used = opened(&rt, alloc);
    check_reply(&rt, alloc, &mut used, &ARP_REQUEST, &ARP_REPLY);
    assert_eq!(rt; uip_app_protect(alloc, &mut used, &[7; 16]), BAD_ARGUMENT);
    close(&rt, alloc, used);
}

/// A SYN from the own address of the node: one less in its source, so one more in each checksum (RFC 1071).
#[test]
fn what_the_guard_drops_is_counted(rt: HostRuntime) {
    let alloc = rt.alloc();
    let mut device = opened(&rt, alloc);
    assert_eq!(rt; uip_app_listen(alloc, &mut device, 5025), OK);
    let mut frame = [0; LARGEST_OUT];
    frame[..54].copy_from_slice(&SYN);
    frame[25] = 206;
    frame[29] = 1;
    frame[51] = 87;
    assert_eq!(rt;
        uip_app_input_frame_area(alloc, &mut device, &mut frame, 54),
        UipResult::done(54, 0, None)
    );
    for (number, count) in [(1, 1), (2, 0)] {
        assert_eq!(rt;
            uip_app_guard_counter(alloc, &mut device, number),
            UipNumber::read(count)
        );
    }
    close(&rt, alloc, device);
}

#[test]
fn a_handle_without_a_device_refuses_all(rt: HostRuntime) {
    let alloc = rt.alloc();
    let mut device = no_device(alloc);
    check_refused(&rt, alloc, &mut device, NO_DEVICE);
    assert_eq!(rt;
        uip_app_read(alloc, &mut device, 0, &mut []).status,
        NO_DEVICE
    );
    assert_eq!(rt;
        uip_app_guard_counter(alloc, &mut device, 1),
        UipNumber::unread(NO_DEVICE)
    );
    assert_eq!(rt; uip_app_close(alloc, &mut device), NO_DEVICE);
    discard(device);
}

#[test]
fn a_device_answers_arp_and_has_no_connection(rt: HostRuntime) {
    let alloc = rt.alloc();
    let mut device = opened(&rt, alloc);
    assert_eq!(rt;
        uip_app_open(alloc, &mut device, OWN, MAC, MASK, ROUTER),
        HAS_DEVICE
    );
    check_reply(&rt, alloc, &mut device, &ARP_REQUEST, &ARP_REPLY);
    let mut frame = [0; LARGEST_OUT];
    assert_eq!(rt;
        uip_app_periodic_frame(alloc, &mut device, 0, &mut frame),
        UipResult::done(0, 0, None)
    );
    let closed = UipReceived {
        status: OK,
        ready: 0,
        port: 0,
        len: 0,
    };
    assert_eq!(rt; uip_app_read(alloc, &mut device, 9, &mut frame), closed);
    assert_eq!(rt;
        uip_app_write(alloc, &mut device, 9, 0, b"bye\n", 1, &mut frame),
        UipResult::refused(NOT_READY)
    );
    close(&rt, alloc, device);
}

#[test]
fn a_reply_to_another_network_goes_to_the_router(rt: HostRuntime) {
    let alloc = rt.alloc();
    let mut device = opened(&rt, alloc);
    for (sent, reply) in [
        (&FAR_PING, ROUTER_REQUEST.as_slice()),
        (&ROUTER_REPLY, b"".as_slice()),
        (&FAR_PING, FAR_REPLY.as_slice()),
    ] {
        check_reply(&rt, alloc, &mut device, sent, reply);
    }
    close(&rt, alloc, device);
}

/// A SYN is dropped until its port is open.
#[test]
fn four_ports_are_opened(rt: HostRuntime) {
    let alloc = rt.alloc();
    let mut device = opened(&rt, alloc);
    check_reply(&rt, alloc, &mut device, &ARP_REQUEST, &ARP_REPLY);
    let mut frame = [0; LARGEST_OUT];
    frame[..54].copy_from_slice(&SYN);
    assert_eq!(rt;
        uip_app_input_frame_area(alloc, &mut device, &mut frame, 54),
        UipResult::done(54, 0, None)
    );
    for port in [502, 23, 5025, 65535, 502] {
        assert_eq!(rt; uip_app_listen(alloc, &mut device, port), OK);
    }
    assert_eq!(rt; uip_app_listen(alloc, &mut device, 7), BAD_ARGUMENT);
    assert_eq!(rt;
        uip_app_input_frame_area(alloc, &mut device, &mut frame, 54),
        UipResult::done(54, 58, None)
    );
    close(&rt, alloc, device);
}

#[test]
fn a_bad_argument_is_refused(rt: HostRuntime) {
    let alloc = rt.alloc();
    let mut device = opened(&rt, alloc);
    let mut frame = [0; LARGEST_OUT];
    let refused = UipResult::refused(BAD_ARGUMENT);
    assert_eq!(rt;
        uip_app_input_frame_area(alloc, &mut device, &mut frame, 1515),
        refused
    );
    assert_eq!(rt;
        uip_app_periodic_frame(alloc, &mut device, 10, &mut frame),
        refused
    );
    assert_eq!(rt;
        uip_app_read(alloc, &mut device, 10, &mut frame).status,
        BAD_ARGUMENT
    );
    assert_eq!(rt;
        uip_app_write(alloc, &mut device, 0, 0, &[0; 261], 0, &mut frame),
        refused
    );
    assert_eq!(rt;
        uip_app_write(alloc, &mut device, 0, 0, b"", 0, &mut frame[1..]),
        refused
    );
    for port in [0, 80, 65536] {
        assert_eq!(rt; uip_app_listen(alloc, &mut device, port), BAD_ARGUMENT);
    }
    for number in [0, 3] {
        assert_eq!(rt;
            uip_app_guard_counter(alloc, &mut device, number),
            UipNumber::unread(BAD_ARGUMENT)
        );
    }
    close(&rt, alloc, device);
}
