//! The printed forms, against texts worked by hand.
//! [add: function] The text of its capture record, worked by hand.

use crate::{Capture, fill_at, text_len};
use app_events::{Row, RowList, State};
use arrayvec::ArrayVec;
use uip_wire::{Addr, Port};

#[test]
fn a_row_of_a_page(rt: HostRuntime) {
    let mut list = ArrayVec::new();
    list.push(Row {
        slot: 0,
        peer: Addr([10, 0, 0, 2]),
        port: Port(1025),
        state: State::Established,
        tries: 0,
        count: 0,
        waiting: false,
    });
    let capture = Capture::Rows(RowList { list });
    let want: &[u8] =
        b"<tr><td>0</td><td>10.0.0.2:1025</td><td>ESTABLISHED</td><td>0</td><td>0</td><td> </td></tr>\r\n";
    let length = text_len(&capture);
    assert_eq!(rt; length, 93);
    if length == 93 {
        let mut text = [0; 93];
        fill_at(&capture, 0, &mut text);
        assert!(rt; text.as_slice() == want);
        let mut part = [0; 10];
        fill_at(&capture, 14, &mut part);
        assert!(rt; part.as_slice() == &want[14..24]);
    }
}

#[test]
fn a_number_in_ten_places(rt: HostRuntime) {
    let capture = Capture::Ticks(47);
    let mut text = [0; 10];
    if text_len(&capture) == 10 {
        fill_at(&capture, 0, &mut text);
    }
    assert!(rt; text == *b"        47");
}
