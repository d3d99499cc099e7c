//! Datagrams in hex digits, four bytes a word, the headers on a line, and a node that receives them.

use app_events::App;
use std::alloc::Global;
use std::process::Abort;
use std::test::Fail;
use uip_node::Node;
use uip_wire::Addr;

pub(crate) const NODE: Addr = Addr([10, 0, 0, 1]);

// A SYN as a Linux host sends it, with five options; its answer, and that answer sent again.
pub(crate) const SYN: &str = "\
    4500003C 00014000 400626B9 0A000002 0A000001 04010050 000003E8 00000000 A002FAF0 32C10000 \
    020403C6 0402080A 00000001 00000000 01030307";

pub(crate) const SYN_ACK: &str = "\
    4500002C 00010000 400666C9 0A000001 0A000002 00500401 00000000 000003E9 601205B4 76260000 \
    020405B4";

pub(crate) const SENT_AGAIN: &str = "\
    4500002C 00020000 400666C8 0A000001 0A000002 00500401 00000000 000003E9 601205B4 76260000 \
    020405B4";

// The client's acknowledgement with one byte of text, and the greeting that is the reply.
pub(crate) const REQUEST: &str = "\
    45000029 00020000 400666CB 0A000002 0A000001 04010050 000003E9 00000001 50182000 FB8D0000 \
    78";

pub(crate) const GREETING: &str = "\
    4500002E 00020000 400666C6 0A000001 0A000002 00500401 00000001 000003EA 501805B4 49F80000 \
    68656C6C 6F0A";

/// Returns the bytes of hex digits.
pub(crate) fn bytes_of(alloc: Global, digits: &str) -> Result<Vec<u8>, Fail> {
    let mut bytes = Vec::new(alloc);
    for word in digits.split_whitespace() {
        let word = hex::decode(alloc, word.as_bytes())
            .ok()
            .ok_or("no hex digits")?;
        bytes.extend_from_slice(&word)?;
    }
    Ok(bytes)
}

/// Passes a datagram to a node, which must reply with this one.
pub(crate) fn check_answer<A: App>(
    rt: &impl Abort,
    alloc: Global,
    node: &mut Node<A>,
    datagram: &str,
    answer: &str,
) -> Result<(), Fail> {
    let datagram = bytes_of(alloc, datagram)?;
    let answer = bytes_of(alloc, answer)?;
    assert!(rt; datagram.len() <= 1500);
    assert_eq!(rt; node.input(&datagram), Some(answer.len()));
    assert_eq!(rt; node.packet(), answer.as_slice());
    Ok(())
}

/// Returns a new node that has received the usual SYN.
pub(crate) fn opened<A: App>(
    rt: &impl Abort,
    alloc: Global,
    shared: A::Shared,
) -> Result<Node<A>, Fail> {
    let Ok(mut node) = Node::<A>::new(alloc, NODE, shared) else {
        return Err("no memory".into());
    };
    check_answer(rt, alloc, &mut node, SYN, SYN_ACK)?;
    Ok(node)
}
