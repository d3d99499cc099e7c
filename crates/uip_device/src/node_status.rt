//! What is read of a node. A device on any link passes these on.

ghost use Rattle.std.specs.Prelude.{◌≡◌, ◌<◌, Some, length, slice_get};
ghost use Rattle.uip_node.specs.Prelude.{counters, ticks_of, AbstractNode, Represents};
ghost use Rattle.uip_device.specs.Prelude.{connection_row, is_node_idle, row_in};

use app_events::{App, Row};
use uip_node::Node;

/// Returns the number of ticks, modulo 2^32.
pub fn node_ticks<A: App>(node: &Node<A>) -> u32
    ensures { (n : AbstractNode) → Represents A.App node.now n n.history → result ≡ ticks_of n.history }
{
    node.ticks
}

/// Returns the counter at an index below 20, modulo 2^32.
/// [add: counter] The bound of the number.
pub fn node_counter<A: App>(node: &Node<A>, place: usize) -> u32
    requires { place < 20 }
    ensures { (n : AbstractNode) → Represents A.App node.now n n.history → slice_get (counters n.history) place ≡ Some result }
{
    node.net[place]
}

/// Returns whether no connection is open. A tick of an idle node only counts.
pub fn is_node_idle<A: App>(node: &Node<A>) -> bool
    ensures { (n : AbstractNode) → Represents A.App node.now n n.history → result ≡ is_node_idle n }
{
    node.now().rows.list.is_empty()
}

/// Returns the row of a slot.
fn row_in(rows: &[Row], slot: usize) -> Option<Row>
    ensures { result ≡ row_in slot rows.now }
{
    for row in rows {
        if row.slot as usize == slot {
            return Some(*row);
        }
    }
    None
}

/// Returns the row of the connection in a slot, as `tcp-connections` shows it; `None` if it is CLOSED.
pub fn node_row<A: App>(node: &Node<A>, slot: usize) -> Option<Row>
    ensures { (n : AbstractNode) → Represents A.App node.now n n.history → result ≡ connection_row slot n }
{
    let now = node.now();
    row_in(now.rows.list.as_slice(), slot)
}
