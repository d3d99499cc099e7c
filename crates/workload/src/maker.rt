//! Makes the schedule of a seed.

ghost use Rattle.std.specs.Prelude.{◌≡◌, ◌≤◌, IfOk, codes, if◌then◌else◌, map};
ghost use Rattle.std.specs.List.{range_with_len};
ghost use Rattle.workload.specs.Workload.{client_of as client_meant, workload_of};

use crate::events::{lines_from, push_drawn, push_opens, push_rounds};
use link_schedule::{ClientPlan, Schedule};
use rand_pcg::Pcg32;
use std::alloc::Global;
use uip_edge::NoMemory;
use uip_wire::{Addr, Port};

/// Makes the schedule of a seed, for this number of clients.
pub fn make(alloc: Global, seed: u64, clients: u8) -> Result<Schedule, NoMemory>
    requires some { 1 ≤ clients }
    requires few { clients ≤ 64 }
    ensures { IfOk result (λ schedule. schedule ≡ workload_of seed clients) }
{
    let mut events = Vec::new(alloc);
    push_opens(&mut events, clients)?;
    push_drawn(&mut events, clients, &mut Pcg32::new(seed, 54), 200)?;
    push_rounds(&mut events)?;
    let lines = lines_from(alloc, u32::from(clients) + 1, events.as_slice())?;
    let clients = clients_of(alloc, clients)?;
    Ok(Schedule { clients, lines })
}

/// Returns the clients in order.
fn clients_of(alloc: Global, clients: u8) -> Result<Vec<ClientPlan>, NoMemory>
    requires { clients ≤ 64 }
    ensures { IfOk result (λ plans. plans.items ≡ map client_meant (range_with_len 1 clients)) }
{
    let mut plans = Vec::new(alloc);
    for place in 0..clients {
        let plan = client_of(alloc, place + 1)?;
        plans.push(plan)?;
    }
    Ok(plans)
}

/// Returns the client with a number.
fn client_of(alloc: Global, number: u8) -> Result<ClientPlan, NoMemory>
    requires { number ≤ 64 }
    ensures { IfOk result (λ plan. plan ≡ client_meant number) }
{
    let odd = number % 2 == 1;
    let request = Vec::from_slice(alloc, request_by(odd))?;
    Ok(ClientPlan {
        addr: Addr([10, 0, 1, number]),
        port: Port(1024 + u16::from(number)),
        mss: mss_by(odd),
        seg: 16,
        request,
    })
}

/// Returns the request of a client.
fn request_by(odd: bool) -> &'static [u8]
    ensures { result.now ≡ (if odd then codes "GET / HTTP/1.0\r\n\r\n" else codes "GET /stats.shtml HTTP/1.0\r\n\r\n") }
{
    if odd {
        b"GET / HTTP/1.0\r\n\r\n"
    } else {
        b"GET /stats.shtml HTTP/1.0\r\n\r\n"
    }
}

/// Returns the segment size that a client advertises, in bytes.
fn mss_by(odd: bool) -> u16
    ensures { result ≡ (if odd then 0 else 200) }
{
    if odd { 0 } else { 200 }
}
