//! A table, if memory suffices.

use crate::Table;
use app_events::Fixed;
use uip_wire::{Addr, Port};

#[test]
fn a_new_table_has_a_slot_and_no_connection(rt: HostRuntime) {
    match Table::<Fixed>::new(rt.alloc()) {
        Ok(table) => {
            assert!(rt; table.slot_for_syn() == Some(0));
            assert!(rt; table.find(Addr([10, 0, 0, 2]), Port(1025), Port(80)) == None);
        }
        Err(_) => assert!(rt; false),
    }
}
