//! What a connection stores and captures, worked by hand.

use crate::{MESSAGE_ROOM, Message, OwnApp, OwnShared, RECEIVED_ROOM};
use app_events::App;
use arrayvec::ArrayVec;
use std::mem::size_of;
use uip_wire::Port;

/// Returns a message for a connection.
fn message_to(to: u32, number: u32, taken: u32, bytes: &[u8]) -> Message {
    let mut text: ArrayVec<u8, MESSAGE_ROOM> = ArrayVec::new();
    let _fits = text.try_extend_from_slice(bytes);
    Message {
        to,
        number,
        taken,
        last: false,
        text,
    }
}

/// Captures a message if the connection may. Returns whether it did.
fn try_capture(app: &mut OwnApp, message: &Message) -> bool {
    if app.may_capture(message) {
        app.capture(message);
        return true;
    }
    false
}

#[test]
fn a_line_is_answered_once(rt: HostRuntime) {
    let mut app = OwnApp::new(1);
    app.store(b"get\nset");
    let reply = message_to(1, 0, 4, b"42\n");
    assert!(rt; try_capture(&mut app, &reply));
    assert_eq!(rt; app.received.as_slice(), b"set".as_slice());
    assert_eq!(rt; app.sending.as_slice(), b"42\n".as_slice());
    assert!(rt; !try_capture(&mut app, &reply));
}

#[test]
fn a_message_has_its_ticket_number_and_bytes(rt: HostRuntime) {
    let mut app = OwnApp::new(1);
    assert!(rt; !try_capture(&mut app, &message_to(2, 0, 0, b"x")));
    assert!(rt; !try_capture(&mut app, &message_to(1, 1, 0, b"x")));
    assert!(rt; !try_capture(&mut app, &message_to(1, 0, 1, b"x")));
    assert!(rt; try_capture(&mut app, &message_to(1, 0, 0, b"x")));
}

#[test]
fn a_message_waits_for_the_acknowledgement(rt: HostRuntime) {
    let mut app = OwnApp::new(1);
    assert!(rt; try_capture(&mut app, &message_to(1, 0, 0, b"x")));
    assert!(rt; !try_capture(&mut app, &message_to(1, 1, 0, b"y")));
    app.at = 1;
    assert!(rt; try_capture(&mut app, &message_to(1, 1, 0, b"y")));
}

#[test]
fn one_byte_too_many_overruns(rt: HostRuntime) {
    let mut app = OwnApp::new(1);
    app.store(&[0x61; RECEIVED_ROOM]);
    assert!(rt; !app.overrun);
    app.store(b"b");
    assert!(rt; app.overrun);
    assert!(rt; !try_capture(&mut app, &message_to(1, 0, 0, b"x")));
}

#[test]
fn a_value_is_small_and_serves_each_port_but_one(rt: HostRuntime) {
    assert!(rt; size_of::<OwnApp>() <= 440);
    assert!(rt; OwnApp::serves(Port(5025)));
    assert!(rt; !OwnApp::serves(Port(80)));
}

#[test]
fn four_ports_are_open_at_most(rt: HostRuntime) {
    let mut shared = OwnShared::first();
    for port in [502, 5025, 23, 502, 7] {
        assert!(rt; shared.listen(port));
    }
    assert!(rt; !shared.listen(8));
    assert!(rt; shared.listen(7));
    assert_eq!(rt; shared.ports.as_slice(), [502, 5025, 23, 7].as_slice());
}
