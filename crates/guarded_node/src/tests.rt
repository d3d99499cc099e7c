//! A guarded node on the wire, beside the values of another program.

use crate::{Guard, guarded_input, guarded_periodic};
use app_events::Fixed;
use sip_hash::Key;
use uip_node::Node;
use uip_wire::{Addr, Port};

const SECRET: [u8; 16] = [0, 1, 2, 3, 4, 5, 6, 7, 8, 9, 10, 11, 12, 13, 14, 15];

/// A segment from 10.0.0.2, port 4000, to 10.0.0.1, port 80, of no connection; its acknowledgement number is 0xA1B2C3D4.
const ARRIVES: [u8; 43] = [
    69, 0, 0, 43, 0, 1, 0, 0, 64, 6, 102, 202, 10, 0, 0, 2, 10, 0, 0, 1, 15, 160, 0, 80, 1, 2, 3,
    4, 161, 178, 195, 212, 80, 16, 32, 0, 120, 232, 0, 0, 104, 105, 33,
];

/// The same from the node's own address.
const FOREIGN: [u8; 43] = [
    69, 0, 0, 43, 0, 1, 0, 0, 64, 6, 102, 203, 10, 0, 0, 1, 10, 0, 0, 1, 15, 160, 0, 80, 1, 2, 3,
    4, 161, 178, 195, 212, 80, 16, 32, 0, 120, 232, 0, 0, 104, 105, 33,
];

#[test]
fn a_reset_has_the_number_that_the_segment_named(rt: HostRuntime) {
    let Ok(mut node) = Node::<Fixed>::new(rt.alloc(), Addr([10, 0, 0, 1]), ()) else {
        assert!(rt; false);
        return;
    };
    let mut guard = Guard::new(Some(Port(80)));
    assert!(rt; guard.protect(Key::new(&SECRET)));
    assert!(rt; !guard.protect(Key::new(&SECRET)));
    assert!(rt; guarded_input(&mut guard, &mut node, &ARRIVES) == Some(40));
    let sent = node.packet();
    if sent.len() < 28 {
        assert!(rt; false);
        return;
    }
    assert!(rt; sent[24..28] == [161, 178, 195, 212]);
    assert!(rt; guarded_input(&mut guard, &mut node, &FOREIGN) == None);
    assert!(rt; guard.counts.dropped == 1);
    assert!(rt; guarded_periodic(&guard, &mut node, 0) == None);
}
