//! A page of a head, a child and a tail, sent in pieces that end at any offset.

use crate::{Child, Run, Says, Then};

#[test]
fn a_page_is_sent_and_continues(rt: HostRuntime) {
    let world: &[u8] = b"headchildta";
    let parent = Run { at: 9, end: 11 };
    let child = Some(Run { at: 4, end: 9 });
    let second = Child { parent, child };
    let first = Run { at: 0, end: 4 };
    let mut thread = Then { first, second };
    assert_eq!(rt; thread.left(world), 11);
    let mut prefix = [0; 6];
    thread.fill(world, &mut prefix);
    assert!(rt; prefix == *b"headch");
    thread.advance(world, 6);
    assert_eq!(rt; thread.left(world), 5);
    let mut rest = [0; 5];
    thread.fill(world, &mut rest);
    assert!(rt; rest == *b"ildta");
}
