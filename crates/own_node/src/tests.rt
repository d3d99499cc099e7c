//! A node without connections, with `OwnApp` alone and in a pair.

use crate::{
    HoldsOwn, is_for_closed_port, is_for_closed_port_of_pair, is_ready, own_port, pending, write,
};
use app_events::{App, Fixed};
use app_pair::{AppPair, PairShared};
use own_app::{OwnApp, OwnShared};
use std::test::Fail;
use uip_node::Node;
use uip_wire::{Addr, Port};

/// Returns whether nothing is read of a node, and nothing is written.
fn is_without_connections<H: HoldsOwn>(node: &mut Node<H>) -> bool {
    pending(node, 0).is_empty()
        && !is_ready(node, 0)
        && own_port(node, 9) == 0
        && !write(node, 9, 0, b"bye\n", true)
}

#[test]
fn without_connections_nothing_is_read_or_written(rt: HostRuntime) -> Result<(), Fail> {
    let Ok(mut node) = Node::<OwnApp>::new(rt.alloc(), Addr([10, 0, 0, 1]), OwnShared::first())
    else {
        return Err("no memory".into());
    };
    assert!(rt; is_without_connections(&mut node));
    Ok(())
}

#[test]
fn nor_in_a_pair(rt: HostRuntime) -> Result<(), Fail> {
    let shared = PairShared {
        first: (),
        second: OwnShared::first(),
    };
    let Ok(mut node) = Node::<AppPair<Fixed, OwnApp>>::new(rt.alloc(), Addr([10, 0, 0, 1]), shared)
    else {
        return Err("no memory".into());
    };
    assert!(rt; is_without_connections(&mut node));
    Ok(())
}

#[test]
fn a_pair_with_pages_serves_each_port(rt: HostRuntime) {
    assert!(rt; AppPair::<Fixed, OwnApp>::serves(Port(80)));
    assert!(rt; AppPair::<Fixed, OwnApp>::serves(Port(5025)));
}

/// A frame with a SYN, and none of its variants: too short, ARP, with options, and UDP.
#[test]
fn a_frame_is_for_a_closed_port(rt: HostRuntime) {
    let mut frame = [0; 54];
    frame[12] = 0x08;
    frame[14] = 0x45;
    frame[23] = 6;
    frame[36] = 19;
    frame[37] = 161;
    assert!(rt; is_for_closed_port(&[502, 80], &frame));
    assert!(rt; !is_for_closed_port(&[502, 5025], &frame));
    assert!(rt; !is_for_closed_port(&[], &frame[..37]));
    frame[36] = 0;
    frame[37] = 80;
    assert!(rt; is_for_closed_port(&[502], &frame));
    assert!(rt; !is_for_closed_port_of_pair(&[502], &frame));
    for (at, other) in [(13, 6), (14, 0x46), (23, 17)] {
        let was = frame[at];
        frame[at] = other;
        assert!(rt; !is_for_closed_port(&[], &frame));
        frame[at] = was;
    }
    assert!(rt; is_for_closed_port(&[], &frame));
}
