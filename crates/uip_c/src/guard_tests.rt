//! The guard from C: a secret, the numbers on the wire, and what is counted. The shift is that of another program (SipHash-2-4).

use crate::calls::{uip_input, uip_periodic_datagram};
use crate::ether_open::uip_open_ether;
use crate::frame_tests::{MAC, MASK, ROUTER};
use crate::guard_calls::{uip_guard_counter, uip_protect};
use crate::open_close::uip_open;
use crate::tests::{IMAGE, OWN, SYN, answer, close, made, no_device};
use c_calls::{BAD_ARGUMENT, NO_DEVICE, OK, UipNumber};
use uip_device::LARGEST_TEXT;

const SECRET: &[u8; 16] = &[0, 1, 2, 3, 4, 5, 6, 7, 8, 9, 10, 11, 12, 13, 14, 15];

/// The SYN from the node's own address.
const FOREIGN: &[u8; 40] = &[
    69, 0, 0, 40, 0, 1, 0, 0, 64, 6, 102, 206, 10, 0, 0, 1, 10, 0, 0, 1, 4, 1, 0, 80, 0, 0, 3, 232,
    0, 0, 0, 0, 80, 2, 32, 0, 115, 168, 0, 0,
];

#[test]
fn a_secret_shifts_the_initial_number(rt: HostRuntime) {
    let alloc = rt.alloc();
    let mut device = no_device(alloc);
    assert_eq!(rt; uip_protect(alloc, &mut device, SECRET), NO_DEVICE);
    assert_eq!(rt; uip_guard_counter(alloc, &mut device, 1).status, NO_DEVICE);
    assert_eq!(rt; uip_open(alloc, &mut device, IMAGE, OWN).status, OK);
    assert_eq!(rt; uip_protect(alloc, &mut device, SECRET), OK);
    assert_eq!(rt; uip_protect(alloc, &mut device, SECRET), BAD_ARGUMENT);

    let mut out = [0; LARGEST_TEXT];
    let dropped = uip_input(alloc, &mut device, FOREIGN, &mut out);
    assert_eq!(rt; dropped, made(FOREIGN.len(), 0));
    let heard = uip_input(alloc, &mut device, SYN, &mut out);
    assert_eq!(rt; heard, made(SYN.len(), 44));
    assert!(rt; out[24..28] == [107, 246, 204, 83]);

    assert_eq!(rt; uip_guard_counter(alloc, &mut device, 1).number, 1);
    assert_eq!(rt; uip_guard_counter(alloc, &mut device, 2).number, 0);
    assert_eq!(rt;
        uip_guard_counter(alloc, &mut device, 0).status,
        BAD_ARGUMENT
    );
    assert_eq!(rt;
        uip_guard_counter(alloc, &mut device, 3).status,
        BAD_ARGUMENT
    );
    close(&rt, alloc, device);
}

#[test]
fn a_late_secret_is_refused(rt: HostRuntime) {
    let alloc = rt.alloc();
    let mut device = no_device(alloc);
    assert_eq!(rt; uip_open(alloc, &mut device, IMAGE, OWN).status, OK);
    let mut out = [0; LARGEST_TEXT];
    let called = uip_periodic_datagram(alloc, &mut device, 0, &mut out);
    assert_eq!(rt; called, answer(OK));
    assert_eq!(rt; uip_protect(alloc, &mut device, SECRET), BAD_ARGUMENT);
    close(&rt, alloc, device);
}

#[test]
fn a_device_on_ethernet_is_protected_too(rt: HostRuntime) {
    let alloc = rt.alloc();
    let mut device = no_device(alloc);
    assert_eq!(rt;
        uip_open_ether(alloc, &mut device, IMAGE, OWN, MAC, MASK, ROUTER).status,
        OK
    );
    assert_eq!(rt; uip_protect(alloc, &mut device, SECRET), OK);
    assert_eq!(rt; uip_protect(alloc, &mut device, SECRET), BAD_ARGUMENT);
    assert_eq!(rt;
        uip_guard_counter(alloc, &mut device, 1),
        UipNumber::read(0)
    );
    close(&rt, alloc, device);
}
