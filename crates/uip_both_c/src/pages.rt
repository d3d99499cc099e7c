//! What only the pages of a node with both applications have: values that are set, hits that are read, and the query.

ghost use Rattle.std.specs.Prelude.{◌≡◌, ◌<◌, ◌≤◌, false, length};
ghost use Rattle.app_pair.specs.PairNumbers.{change_own, own_numbers};
ghost use Rattle.file_tree.specs.Prelude.{files_of};
ghost use Rattle.uip_both_c.specs.Prelude.{both};
ghost use Rattle.uip_device.specs.Prelude.{ChangesNode, ReadsQuery, query_of, write_value};
ghost use Rattle.uip_node.specs.Prelude.{AbstractNode, Represents};
ghost use Rattle.web_pages.specs.Prelude.{hits_of};

use crate::held::BothApps;
use uip_device::QueryRead;
use uip_node::Node;

/// Sets value `number` of the pages, below 16, to a copy of `text`, at most 32 bytes.
pub(crate) fn set_page_value(node: &mut Node<BothApps>, number: usize, text: &[u8])
    requires number { number < 16 }
    requires short { length text.now ≤ 32 }
    ensures { ChangesNode both (change_own false (write_value number text.now)) node.old node.new }
{
    node.shared.first.set_value(number, text);
}

/// Returns how often the file of that name was requested of the pages, modulo 2^32; 0 if no file has the name.
pub(crate) fn page_hits(node: &Node<BothApps>, name: &[u8]) -> u32
    ensures { (n : AbstractNode) → Represents both node.now n n.history
        → result ≡ hits_of (files_of node.now.shared.first.web.site) (own_numbers false n.numbers) name.now }
{
    node.shared.first.hits(name)
}

/// Copies the text of the query that the pages keep for the file of that name to the start of `out`, which has room for 64 bytes. Returns
/// its length and the count of the file's hits after the request that brought it; both are 0 if none is kept for that file.
pub(crate) fn page_query(node: &Node<BothApps>, name: &[u8], out: &mut [u8]) -> QueryRead
    requires { 64 ≤ length out.old }
    ensures { let pages = node.now.shared.first in
        ReadsQuery (query_of (files_of pages.web.site) pages.query name.now) result.hit result.len out.old out.new }
{
    node.shared.first.read_query(name, out)
}
