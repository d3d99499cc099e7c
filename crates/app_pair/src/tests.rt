//! The ports of a pair, and how large a value is.

use crate::AppPair;
use app_events::{App, Fixed};
use std::mem::size_of;
use uip_wire::Port;

/// Three applications.
type Three = AppPair<AppPair<Fixed, Fixed>, Fixed>;

#[test]
fn a_pair_serves_the_ports_of_both(rt: HostRuntime) {
    assert!(rt; AppPair::<Fixed, Fixed>::serves(Port(80)));
    assert!(rt; !AppPair::<Fixed, Fixed>::serves(Port(7)));
    assert!(rt; Three::serves(Port(80)));
}

#[test]
fn a_value_has_one_application(rt: HostRuntime) {
    assert!(rt; size_of::<AppPair<Fixed, Fixed>>() <= size_of::<Fixed>() + 4);
    assert!(rt; size_of::<Three>() <= size_of::<Fixed>() + 8);
}
