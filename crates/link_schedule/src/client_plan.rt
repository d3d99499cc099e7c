use std::marker::Model;
use uip_wire::{Addr, Port};

/// A client of a schedule: its address and port, the MSS that its SYN advertises in bytes (0 for no option), the greatest
/// number of bytes that it sends in one segment, and its request.
#[derive(Debug, Drop)]
pub struct ClientPlan {
    pub addr: Addr,
    pub port: Port,
    pub mss: u16,
    pub seg: u16,
    pub request: Vec<u8>,
}

impl Model for ClientPlan {
    ghost use Rattle.link_schedule.specs.Clients.{Plan};

    ghost Value = { Plan };

    ghost view = { λ plan. record {
      addr = plan.addr;
      port = plan.port;
      mss = plan.mss;
      seg = plan.seg;
      request = plan.request.items;
    } };
}
