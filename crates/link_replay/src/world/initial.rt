//! The initial world.

ghost use Rattle.std.specs.List.{list_all};
ghost use Rattle.std.specs.Prelude.{◌≡◌, ◌<◌, ◌≤◌, ℕ, Some, true, IfOk, length, slice_get};
ghost use Rattle.app_events.specs.Prelude.{IsAddr};
ghost use Rattle.link_schedule.specs.Kept.{client_in_range};
ghost use Rattle.link_world.specs.Prelude.{IsPlanned, Planned};
ghost use Rattle.link_replay.specs.Prelude.{AreFresh, IsFresh, opening_for, plan_from, planned, WorldRepresents};

use crate::world::side::Side;
use crate::world::value_facts::{is_addr, is_bytes, is_short};
use crate::world::{World, WorldOf};
use app_events::App;
use file_tree::Site;
use httpd::Web;
use link_client::{Client, Setup};
use link_schedule::{ClientPlan, Schedule};
use std::alloc::Global;
use uip_edge::NoMemory;
use uip_node::Node;
use uip_wire::{Addr, LARGEST_DATAGRAM, Port, Seq, WEB_PORT};

/// The address of the node.
const SERVER: Addr = Addr([10, 0, 0, 1]);

/// The port of each client's request.
const SERVER_PORT: Port = Port(WEB_PORT);

/// The ISS of each client is its number times this.
const FIRST_NUMBERS: u32 = 1000;

/// Returns the setup of the client with this number.
fn setup_for(number: u16, plan: &ClientPlan) -> Setup
    requires { number ≤ 64 }
    ensures setup { result ≡ (planned number plan.now).setup }
    ensures addr { IsAddr plan.now.addr }
    ensures port { plan.now.port.0 < 65536 }
    ensures mss { plan.now.mss < 65536 }
{
    is_addr(plan.addr);
    is_short(plan.port.0);
    is_short(plan.mss);
    Setup {
        addr: plan.addr,
        port: plan.port,
        mss: plan.mss,
        seg: plan.seg,
        iss: Seq(FIRST_NUMBERS * u32::from(number)),
        server: SERVER,
        server_port: SERVER_PORT,
    }
}

/// Returns the client with this number, before its first act.
fn side_for(alloc: Global, number: u16, plan: &ClientPlan) -> Result<Side, NoMemory>
    requires few { number ≤ 64 }
    requires range { client_in_range plan.now ≡ true }
    ensures { IfOk result (λ side. IsFresh number plan.now side) }
{
    let setup = setup_for(number, plan);
    let asked = plan.request.as_slice();
    is_bytes(asked);
    let request = asked.to_vec(alloc)?;
    Ok(Side {
        client: Client::new(setup),
        request,
        received: Vec::new(alloc),
        epoch: 0,
        first_stale: None,
    })
}

/// Returns the clients of a schedule in order, numbered from 1.
fn sides_for(alloc: Global, clients: &[ClientPlan]) -> Result<Vec<Side>, NoMemory>
    requires few { length clients.now ≤ 64 }
    requires ranges { list_all client_in_range clients.now ≡ true }
    ensures { IfOk result (λ sides. AreFresh clients.now sides.items) }
{
    let mut sides = Vec::new(alloc);
    for (at, plan) in clients.iter().enumerate() {
        let side = side_for(alloc, at as u16 + 1, plan)?;
        sides.push(side)?;
    }
    Ok(sides)
}

impl<A: App> WorldOf<A> {
    /// Returns the initial world: the node at 10.0.0.1, every client idle, and no datagram sent. On NoMemory `shared` is
    /// dropped.
    pub(crate) fn opening(
        alloc: Global,
        clients: &[ClientPlan],
        shared: A::Shared,
    ) -> Result<WorldOf<A>, NoMemory>
        requires few { length clients.now ≤ 64 }
        requires ranges { list_all client_in_range clients.now ≡ true }
        ensures represented { IfOk result (λ world. WorldRepresents A.App world (opening_for (A.numbers shared) clients.now)) }
        ensures shared { IfOk result (λ world. world.node.shared ≡ shared) }
        ensures planned { IfOk result (λ world. (k : ℕ) (p : Planned) → slice_get (plan_from 1 clients.now) k ≡ Some p
            → IsPlanned p) }
    {
        let sides = sides_for(alloc, clients)?;
        let area = vec![in alloc; 0u8; LARGEST_DATAGRAM]?;
        let node = Node::new(alloc, SERVER, shared)?;
        Ok(WorldOf {
            node,
            sides,
            sent: Vec::new(alloc),
            mark: 0,
            spent: false,
            area,
        })
    }
}

impl World {
    ghost use Rattle.file_tree.specs.Site.{files_of};
    ghost use Rattle.httpd.specs.contracts.httpd.HttpdApp.TheImpl.{ghosts};
    ghost use Rattle.web_pages.specs.Serving.{no_hits};

    /// Returns the initial world of a schedule's clients and the web server of a site: the node at 10.0.0.1, every client idle,
    /// and no datagram sent. On NoMemory the site is dropped.
    pub fn new(alloc: Global, schedule: &Schedule, site: Site) -> Result<World, NoMemory>
        ensures represented { IfOk result (λ world. WorldRepresents ghosts world
            (opening_for (no_hits (files_of site)) schedule.now.clients)) }
        ensures site { IfOk result (λ world. world.node.shared.site ≡ site) }
    {
        let web = Web::new(alloc, site)?;
        World::opening(alloc, schedule.clients.as_slice(), web)
    }
}
