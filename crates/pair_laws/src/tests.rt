//! A node with a pair, and no connection.

use app_events::Fixed;
use app_pair::{AppPair, PairShared};
use std::test::Fail;
use uip_node::Node;
use uip_wire::Addr;

/// Three applications.
type Three = AppPair<AppPair<Fixed, Fixed>, Fixed>;

#[test]
fn a_node_has_three_applications(rt: HostRuntime) -> Result<(), Fail> {
    let shared = PairShared {
        first: PairShared {
            first: (),
            second: (),
        },
        second: (),
    };
    let Ok(mut node) = Node::<Three>::new(rt.alloc(), Addr([10, 0, 0, 1]), shared) else {
        return Err("no memory".into());
    };
    assert!(rt; node.periodic(0).is_none());
    Ok(())
}
