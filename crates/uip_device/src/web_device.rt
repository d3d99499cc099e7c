//! What only a node with the web server of a device has: values that are set, and hits that are read.

ghost use Rattle.std.specs.Prelude.{◌≡◌, ◌<◌, ◌≤◌, IfSome, length, option_map};
ghost use Rattle.file_tree.specs.Prelude.{files_of};
ghost use Rattle.uip_node.specs.Prelude.{AbstractNode, Represents};
ghost use Rattle.web_pages.specs.Prelude.{hits_of, place_of};
ghost use Rattle.uip_device.specs.contracts.value_pages.ValuePagesApp.TheImpl.{ghosts};
ghost use Rattle.uip_device.specs.Devices.{Changes, ChangesNode};
ghost use Rattle.uip_device.specs.Query.{ReadsQuery, query_of};
ghost use Rattle.uip_device.specs.WebDevices.{IsSoundWebDevice, site_in, write_value};

use crate::device::Device;
use crate::device_web::{DeviceWeb, FlashWeb, see_counted};
use crate::query::QueryRead;
use crate::value_pages::ValuePages;
use crate::web_setup::see_loaded;
use device_values::Values;
use file_tree::FileId;
use uip_node::Node;

/// A device with the web server of a site.
pub type WebDevice = Device<ValuePages>;

/// States the length of the values.
fn see_values(values: &Values)
    ensures { length values.now.bytes ≡ 528 }
{
    let _ = &values.bytes;
}

/// Returns the file of that name, by its index.
fn file_in(web: &FlashWeb, name: &[u8]) -> Option<FileId>
    ensures place { option_map (λ id. id.0) result ≡ place_of (files_of web.now.site) name.now }
    ensures within { IfSome result (λ id. id.0 < length web.now.hits) }
{
    see_loaded(&web.site);
    see_counted(web);
    web.site.find(name)
}

impl DeviceWeb {
    /// Sets value `number`, below 16, to a copy of `text`, at most 32 bytes.
    pub fn set_value(&mut self, number: usize, text: &[u8])
        requires number { number < 16 }
        requires short { length text.now ≤ 32 }
        ensures web { self.new.web ≡ self.old.web }
        ensures numbers { ghosts.numbers self.new ≡ write_value number text.now (ghosts.numbers self.old) }
    {
        see_values(&self.values);
        self.values.give(number, text);
    }

    /// Returns how often the file of that name was requested, modulo 2^32; 0 if no file has the name.
    pub fn hits(&self, name: &[u8]) -> u32
        ensures { result ≡ hits_of (files_of self.now.web.site) (ghosts.numbers self.now) name.now }
    {
        let web = &self.web;
        match file_in(web, name) {
            Some(id) => web.hits[id.0 as usize],
            None => 0,
        }
    }

    /// Copies the text of the query that is kept for the file of that name to the start of `out`, which has room for 64 bytes. Returns its
    /// length and the count of the file's hits after the request that brought it; both are 0 if none is kept for that file.
    pub fn read_query(&self, name: &[u8], out: &mut [u8]) -> QueryRead
        requires { 64 ≤ length out.old }
        ensures { ReadsQuery (query_of (files_of self.now.web.site) self.now.query name.now) result.hit result.len out.old out.new }
    {
        self.query.read(file_in(&self.web, name), out)
    }
}

/// Sets value `number` of a node, below 16, to a copy of `text`, at most 32 bytes. Its packet is unchanged.
pub fn set_node_value(node: &mut Node<ValuePages>, number: usize, text: &[u8])
    requires number { number < 16 }
    requires short { length text.now ≤ 32 }
    ensures { ChangesNode ghosts (write_value number text.now) node.old node.new }
{
    node.shared.set_value(number, text);
}

/// Returns how often the file of that name was requested of a node, modulo 2^32; 0 if no file has the name.
pub fn node_hits(node: &Node<ValuePages>, name: &[u8]) -> u32
    ensures { (n : AbstractNode) → Represents ghosts node.now n n.history
        → result ≡ hits_of (files_of node.now.shared.web.site) n.numbers name.now }
{
    node.shared.hits(name)
}

/// Copies the text of the query that a node keeps for the file of that name, as `read_query`.
pub fn node_query(node: &Node<ValuePages>, name: &[u8], out: &mut [u8]) -> QueryRead
    requires { 64 ≤ length out.old }
    ensures { ReadsQuery (query_of (files_of node.now.shared.web.site) node.now.shared.query name.now)
        result.hit result.len out.old out.new }
{
    node.shared.read_query(name, out)
}

impl WebDevice {
    /// Sets value `number`, below 16, to a copy of `text`, at most 32 bytes. Pending output is unchanged.
    pub fn set_value(&mut self, number: usize, text: &[u8])
        requires number { number < 16 }
        requires short { length text.now ≤ 32 }
        requires sound { IsSoundWebDevice self.old }
        ensures sound { IsSoundWebDevice self.new }
        ensures gives { Changes ghosts (write_value number text.now) self.old self.new }
    {
        set_node_value(&mut self.node, number, text);
    }

    /// Returns how often the file of that name was requested, modulo 2^32; 0 if no file has the name.
    pub fn hits(&self, name: &[u8]) -> u32
        ensures { (n : AbstractNode) → Represents ghosts self.now.node n n.history
            → result ≡ hits_of (files_of (site_in self.now)) n.numbers name.now }
    {
        node_hits(&self.node, name)
    }
}
