use crate::ValuePages;
use std::mem::size_of;

#[test]
fn size_of_a_connection(rt: HostRuntime) {
    assert!(rt; size_of::<ValuePages>() <= 128);
}
