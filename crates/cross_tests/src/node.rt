//! A node of the fixed greeting, on its happy path.

ghost use Rattle.std.specs.Prelude.{◌≤◌, length};

use crate::talking::{GREETING, NODE, REQUEST, SENT_AGAIN, SYN, bytes_of, check_answer, opened};
use app_events::{App, Fixed};
use std::test::Fail;
use uip_node::Node;

#[test]
fn a_usual_syn_is_answered_and_its_answer_sent_again(rt: HostRuntime) -> Result<(), Fail> {
    let alloc = rt.alloc();
    let mut node = opened::<Fixed>(&rt, alloc, ())?;
    assert!(rt; node.periodic(0) == None);
    assert!(rt; node.periodic(0) == None);
    assert!(rt; node.periodic(0) == None);
    assert!(rt; node.periodic(0) == Some(44));
    assert_eq!(rt; node.packet(), bytes_of(alloc, SENT_AGAIN)?.as_slice());
    Ok(())
}

#[test]
fn a_greeting_is_served(rt: HostRuntime) -> Result<(), Fail> {
    let alloc = rt.alloc();
    let mut node = opened::<Fixed>(&rt, alloc, ())?;
    check_answer(&rt, alloc, &mut node, REQUEST, GREETING)
}

/// Returns whether no prefix of a datagram, up to this length, is answered.
fn are_ignored<A: App>(node: &mut Node<A>, datagram: &[u8], end: usize) -> bool
    requires end { end ≤ length datagram.now }
    requires most { length datagram.now ≤ 1500 }
{
    if end == 0 {
        return true;
    }
    are_ignored(node, datagram, end - 1) && node.input(&datagram[..end]).is_none()
}

/// [add: counter] A datagram that raises the counter.
#[test]
fn cut_datagrams_are_counted(rt: HostRuntime) -> Result<(), Fail> {
    let alloc = rt.alloc();
    let syn = bytes_of(alloc, SYN)?;
    assert!(rt; syn.len() == 60);
    let Ok(mut node) = Node::<Fixed>::new(alloc, NODE, ()) else {
        return Err("no memory".into());
    };
    assert!(rt; are_ignored(&mut node, &syn, 59));
    let counted = [
        59, 0, 0, 19, 0, 40, 0, 0, 0, 0, 0, 0, 0, 0, 0, 0, 0, 0, 0, 0,
    ];
    assert!(rt; node.now().net == counted);
    Ok(())
}
