//! A request line, received in pieces that end at any offset.

use crate::{LineIn, Stops};
use protothread::Hears;

#[test]
fn a_request_line_is_received_in_pieces(rt: HostRuntime) {
    let mut method = LineIn::new(Stops::Space);
    assert_eq!(rt; method.feed(b"GE"), 2);
    assert!(rt; !method.done());
    assert_eq!(rt; method.feed(b"T /st"), 2);
    assert!(rt; method.done() && method.name.as_slice() == b"GET".as_slice());
    let mut path = LineIn::new(Stops::SpaceOrLine);
    assert_eq!(rt; path.feed(b"/st"), 3);
    assert_eq!(rt; path.feed(b"ats?a"), 5);
    assert_eq!(rt; path.feed(b"?b\r\n"), 3);
    assert!(rt; path.done() && path.query && !path.over);
    assert!(rt; path.name.as_slice() == b"/stats".as_slice());
    assert_eq!(rt; path.feed(b"\n"), 0);
}
