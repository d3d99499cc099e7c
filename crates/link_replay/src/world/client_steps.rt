//! What a client does, and what it receives.

ghost use Rattle.std.specs.Prelude.{◌≡◌, ◌≤◌, IfOk, length, Some};
ghost use Rattle.link_client.specs.Prelude.{FitsRequest, client_receives, client_hands, advertises_window};
ghost use Rattle.link_world.specs.World.{Side as PlainSide, with_client};
ghost use Rattle.link_replay.specs.Prelude.{Stepped, own_step, SideRepresents};

use crate::world::faults::is_idle_client;
use crate::world::side::Side;
use uip_edge::NoMemory;
use uip_wire::LARGEST_DATAGRAM;

/// An act of a client by itself.
#[derive(Clone, Copy)]
pub(crate) enum Own {
    Opens,
    Again,
    Closes,
    Aborts,
}

impl Side {
    /// Does an act of the client. What it sends is at the start of the area.
    pub(crate) fn act(&mut self, own: Own, area: &mut [u8]) -> Option<usize>
        requires fits { FitsRequest self.old.client self.old.request }
        requires room { LARGEST_DATAGRAM ≤ length area.old }
        ensures fits { FitsRequest self.new.client self.new.request }
        ensures setup { self.new.client.setup ≡ self.old.client.setup }
        ensures room { length area.new ≡ length area.old }
        ensures step { (s : PlainSide) → SideRepresents self.old s → Stepped (own_step own s.client) s self.new result area.new }
    {
        match own {
            Own::Opens => {
                if is_idle_client(&self.client) {
                    Some(self.client.open_now(area))
                } else {
                    None
                }
            }
            Own::Again => self.client.again(self.request.as_slice(), area),
            Own::Closes => self.client.close_now(self.request.as_slice(), area),
            Own::Aborts => self.client.abort_now(area),
        }
    }

    /// Advertises a window from now on.
    pub(crate) fn advertise_window(&mut self, window: u16)
        ensures fits { FitsRequest self.old.client self.old.request → FitsRequest self.new.client self.new.request }
        ensures setup { self.new.client.setup ≡ self.old.client.setup }
        ensures step { (s : PlainSide) → SideRepresents self.old s
            → SideRepresents self.new (with_client s (advertises_window window s.client).client) }
    {
        self.client.set_window(window);
    }

    /// Passes bytes to the client, which accepts them if they are a segment of its server.
    pub(crate) fn receive(
        &mut self,
        datagram: &[u8],
        area: &mut [u8],
    ) -> Result<Option<usize>, NoMemory>
        requires fits { FitsRequest self.old.client self.old.request }
        requires most { length datagram.now ≤ LARGEST_DATAGRAM }
        requires room { LARGEST_DATAGRAM ≤ length area.old }
        ensures fits { FitsRequest self.new.client self.new.request }
        ensures setup { self.new.client.setup ≡ self.old.client.setup }
        ensures room { length area.new ≡ length area.old }
        ensures step { IfOk result (λ sent. (s : PlainSide) → SideRepresents self.old s
            → Stepped (client_hands s.client (client_receives s.client.setup datagram.now)) s self.new sent area.new) }
    {
        let took = self.client.take(self.request.as_slice(), datagram, area);
        let fresh = &datagram[took.fresh_at..took.fresh_at + took.fresh_len];
        self.received.extend_from_slice(fresh)?;
        Ok(took.sent)
    }
}
