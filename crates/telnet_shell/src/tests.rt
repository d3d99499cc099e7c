//! Sessions through the shell's own fields, against texts worked by hand.

use crate::reply_text::left_len;
use crate::{Desk, Shell, TELNET_PORT};
use app_events::App;
use std::mem::size_of;
use uip_wire::{Port, WEB_PORT};

fn idle_of<A: App>() -> A {
    A::idle()
}

/// Returns the length of a shell's reply to a piece.
fn answered(piece: &[u8]) -> usize {
    let mut shell = idle_of::<Shell>();
    shell.receive_piece(piece);
    left_len(shell.queue.as_slice(), &shell.capture)
}

#[test]
fn lengths_of_answers(rt: HostRuntime) {
    assert!(rt; answered(b"\xff\xfb\x01quit\n") == 8);
    assert!(rt; answered(b"help\n") == 31);
    assert!(rt; answered(b"\n\r\n") == 4);
    assert!(rt; answered(b"nosuch\nticks\n") == 5);
    assert!(rt; answered(b"help") == 0);
}

#[test]
fn a_desk_is_small_and_serves_two_ports(rt: HostRuntime) {
    assert!(rt; size_of::<Shell>() <= 448);
    assert!(rt; size_of::<Desk>() <= 448);
    assert!(rt; Desk::serves(Port(TELNET_PORT)));
    assert!(rt; Desk::serves(Port(WEB_PORT)));
    assert!(rt; !Desk::serves(Port(24)));
}
