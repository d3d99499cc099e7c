//! Worked frames: the request and reply of RFC 826, and a ping over each link, with ample memory.
use crate::worked::{
    ARP_REPLY, ARP_REQUEST, FAR_PING, FAR_REPLY, OWN_REQUEST, PING, PING_REPLY, ROUTER_REPLY,
    ROUTER_REQUEST,
};
use crate::{Datagrams, Ethernet, FrameDevice, Frames, LARGEST_OUT, Network};
use app_events::Fixed;
use ethernet_arp::Mac;
use sip_hash::Key;
use std::alloc::Global;
use std::process::Abort;
use std::test::Fail;
use uip_wire::Addr;

const NODE: Addr = Addr([10, 0, 0, 1]);

const MAC: Mac = Mac([2, 0, 0, 0, 0, 1]);

/// The addresses 10.0.0.0 to 10.0.0.255 are on the link, and 10.0.0.254 leads to all others.
const NETWORK: Network = Network {
    mask: Addr([255, 255, 255, 0]),
    router: Addr([10, 0, 0, 254]),
};

/// Makes a device of the fixed greeting on a link.
fn device_on<M: Frames>(alloc: Global, frames: M) -> Result<FrameDevice<Fixed, M>, Fail> {
    match FrameDevice::new(alloc, NODE, frames, (), None) {
        Ok(device) => Ok(device),
        Err(_) => Err("no memory".into()),
    }
}

/// Passes a frame to a device, which must write this one.
fn check_reply<M: Frames>(
    rt: &impl Abort,
    device: &mut FrameDevice<Fixed, M>,
    frame: &[u8],
    reply: &[u8],
) {
    let mut buf = [0; LARGEST_OUT];
    assert!(rt; frame.len() <= buf.len());
    buf[..frame.len()].copy_from_slice(frame);
    let len = device.input(&mut buf, frame.len());
    assert_eq!(rt; &buf[..len], reply);
}

#[test]
fn an_arp_request_is_answered_and_teaches(rt: HostRuntime) -> Result<(), Fail> {
    let mut device = device_on(rt.alloc(), Ethernet::new(NODE, MAC, NETWORK))?;
    check_reply(&rt, &mut device, &PING, &OWN_REQUEST);
    check_reply(&rt, &mut device, &ARP_REQUEST, &ARP_REPLY);
    check_reply(&rt, &mut device, &PING, &PING_REPLY);
    Ok(())
}

#[test]
fn a_reply_to_another_network_goes_to_the_router(rt: HostRuntime) -> Result<(), Fail> {
    let mut device = device_on(rt.alloc(), Ethernet::new(NODE, MAC, NETWORK))?;
    check_reply(&rt, &mut device, &FAR_PING, &ROUTER_REQUEST);
    check_reply(&rt, &mut device, &ROUTER_REPLY, &[]);
    check_reply(&rt, &mut device, &FAR_PING, &FAR_REPLY);
    Ok(())
}

#[test]
fn a_bare_datagram_is_answered(rt: HostRuntime) -> Result<(), Fail> {
    let mut device = device_on(rt.alloc(), Datagrams)?;
    check_reply(&rt, &mut device, &PING[14..], &PING_REPLY[14..]);
    Ok(())
}

#[test]
fn a_tick_without_connections_sends_nothing(rt: HostRuntime) -> Result<(), Fail> {
    let mut device = device_on(rt.alloc(), Ethernet::new(NODE, MAC, NETWORK))?;
    let mut out = [0; LARGEST_OUT];
    assert!(rt; device.periodic(0, &mut out) == 0);
    assert!(rt; device.periodic(9, &mut out) == 0);
    Ok(())
}

/// A segment from 10.0.0.2, port 4000, to port 80, of no connection; its acknowledgement number is 0xA1B2C3D4.
const STRANGER: [u8; 43] = [
    69, 0, 0, 43, 0, 1, 0, 0, 64, 6, 102, 202, 10, 0, 0, 2, 10, 0, 0, 1, 15, 160, 0, 80, 1, 2, 3,
    4, 161, 178, 195, 212, 80, 16, 32, 0, 120, 232, 0, 0, 104, 105, 33,
];

#[test]
fn a_secret_is_set_once_and_in_time(rt: HostRuntime) -> Result<(), Fail> {
    let mut device = device_on(rt.alloc(), Datagrams)?;
    assert!(rt; device.protect(Key::new(&[7; 16])));
    assert!(rt; !device.protect(Key::new(&[8; 16])));
    let mut used = device_on(rt.alloc(), Datagrams)?;
    check_reply(&rt, &mut used, &PING[14..], &PING_REPLY[14..]);
    assert!(rt; !used.protect(Key::new(&[7; 16])));
    Ok(())
}

#[test]
fn a_reset_has_the_number_that_the_segment_named(rt: HostRuntime) -> Result<(), Fail> {
    let mut device = device_on(rt.alloc(), Datagrams)?;
    assert!(rt; device.protect(Key::new(&[7; 16])));
    let mut buf = [0; LARGEST_OUT];
    buf[..43].copy_from_slice(&STRANGER);
    assert!(rt; device.input(&mut buf, 43) == 40);
    assert!(rt; buf[24..28] == [161, 178, 195, 212]);
    Ok(())
}

#[test]
fn a_datagram_from_the_own_address_is_dropped(rt: HostRuntime) -> Result<(), Fail> {
    let mut device = device_on(rt.alloc(), Datagrams)?;
    let mut buf = [0; LARGEST_OUT];
    buf[..43].copy_from_slice(&STRANGER);
    buf[11] = 203;
    buf[15] = 1;
    assert!(rt; device.input(&mut buf, 43) == 0);
    assert!(rt; device.guard.counts.dropped == 1);
    Ok(())
}
