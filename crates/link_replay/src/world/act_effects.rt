//! Does an act that is not refused.

ghost use Rattle.std.specs.Prelude.{◌≡◌, ◌<◌, ◌≤◌, ℕ, false, None, Ok, OnOk, length};
ghost use Rattle.uip_node.specs.Prelude.{tick, Periodic};
ghost use Rattle.link_world.specs.Prelude.{client_acts, does, handles_all, changed, ping_from, OfPing, IsAct};
ghost use Rattle.link_world.specs.World.{World as PlainWorld, node_handles, posts};
ghost use Rattle.link_world.specs.declared.who.Who.TheVariants.{Pinger};
ghost use Rattle.link_replay.specs.Prelude.{DoesAct, FromHere, HandsOver, KeepsLink, PassesToNode, ReportsStep, WorldRepresents};
ghost use Rattle.link_replay.specs.Prelude.{client_reported, own_step};

use crate::world::WorldOf;
use crate::world::before_call::Before;
use crate::world::call_effects::tell;
use crate::world::client_acts::{act_alone, advertise_window, receive};
use crate::world::client_steps::Own;
use crate::world::marks::{pair_of, see};
use crate::world::numbers::at_number;
use crate::world::sent_list::post;
use crate::world::socket_pair::SocketPair;
use app_events::App;
use link_world::{Act, Who};
use uip_edge::NoMemory;
use uip_ipv4::{Proto, put_head};
use uip_wire::{Addr, LARGEST_DATAGRAM};

impl<A: App> WorldOf<A> {
    /// Records what a call of the node changed. Its reply, if any, goes to the client with these sockets, or is an echo reply.
    fn record_call(
        &mut self,
        before: &Before,
        answer: Option<usize>,
        to: Option<SocketPair>,
    ) -> Result<(), NoMemory>
        ensures node { self.new.node ≡ self.old.node }
        ensures mark { self.new.mark ≡ self.old.mark }
        ensures spent { self.new.spent ≡ self.old.spent }
        ensures kept { KeepsLink self.old.link self.new.link }
        ensures reported { OnOk result (ReportsStep A.App before.now self.old.node to answer self.old.link self.new.link) }
    {
        tell(
            &self.node,
            &mut self.sides,
            &mut self.sent,
            before,
            answer,
            to,
        )?;
        Ok(())
    }

    /// Passes bytes to the node. Its reply goes to the client with these sockets, or is an echo reply.
    fn node_receives(&mut self, bytes: &[u8], to: Option<SocketPair>) -> Result<(), NoMemory>
        requires most { length bytes.now ≤ LARGEST_DATAGRAM }
        ensures same { A.config self.new.node.shared ≡ A.config self.old.node.shared }
        ensures mark { self.new.mark ≡ self.old.mark }
        ensures delivered { OnOk result (PassesToNode A.App bytes.now to self.old self.new) }
    {
        let before = Before::of(&self.node);
        let answer = self.node.input(bytes);
        self.record_call(&before, answer, to)?;
        Ok(())
    }

    /// Makes the periodic call of the connection in a slot below 10.
    fn node_ticks(&mut self, slot: usize) -> Result<(), NoMemory>
        requires within { slot < 10 }
        ensures same { A.config self.new.node.shared ≡ A.config self.old.node.shared }
        ensures mark { self.new.mark ≡ self.old.mark }
        ensures ticked { OnOk result ((w : PlainWorld) → WorldRepresents A.App self.old w
            → WorldRepresents A.App self.new (node_handles (A.app_spec (A.config self.old.node.shared)) A.served w (Periodic slot))) }
    {
        let before = Before::of(&self.node);
        let answer = self.node.periodic(slot);
        let to = before.pair(slot);
        self.record_call(&before, answer, to)?;
        Ok(())
    }

    /// Ticks: makes the periodic calls of all slots in turn.
    fn tick(&mut self) -> Result<(), NoMemory>
        ensures same { A.config self.new.node.shared ≡ A.config self.old.node.shared }
        ensures mark { self.new.mark ≡ self.old.mark }
        ensures ticked { OnOk result ((w : PlainWorld) → WorldRepresents A.App self.old w
            → WorldRepresents A.App self.new (handles_all (A.app_spec (A.config self.old.node.shared)) A.served tick w)) }
    {
        for slot in 0..10 {
            self.node_ticks(slot)?;
        }
        Ok(())
    }

    /// Does an act of a client by itself.
    fn own(&mut self, number: u8, own: Own) -> Result<(), NoMemory>
        ensures same { A.config self.new.node.shared ≡ A.config self.old.node.shared }
        ensures mark { self.new.mark ≡ self.old.mark }
        ensures acted { OnOk result ((w : PlainWorld) → WorldRepresents A.App self.old w
            → WorldRepresents A.App self.new (client_acts w number (own_step own))) }
    {
        let tick = self.node.ticks();
        act_alone(
            &mut self.sides,
            &mut self.sent,
            &mut self.area,
            number,
            own,
            tick,
        )?;
        Ok(())
    }

    /// Sends an echo request.
    fn ping(&mut self, source: Addr) -> Result<(), NoMemory>
        ensures same { A.config self.new.node.shared ≡ A.config self.old.node.shared }
        ensures mark { self.new.mark ≡ self.old.mark }
        ensures sent { OnOk result ((w : PlainWorld) → WorldRepresents A.App self.old w
            → WorldRepresents A.App self.new (posts w Pinger false (OfPing (ping_from source w.node.addr)))) }
    {
        let bytes = echo_request(source, self.node.addr())
            .as_slice()
            .to_vec(*self.sent.allocator())?;
        let tick = self.node.ticks();
        post(
            self.sides.as_slice(),
            &mut self.sent,
            Who::Pinger,
            tick,
            false,
            bytes,
        )?;
        Ok(())
    }

    /// Delivers a datagram's bytes to the node, or to the client that it was sent to.
    fn hand(&mut self, who: Who, bytes: &[u8]) -> Result<(), NoMemory>
        requires most { length bytes.now ≤ LARGEST_DATAGRAM }
        ensures same { A.config self.new.node.shared ≡ A.config self.old.node.shared }
        ensures mark { self.new.mark ≡ self.old.mark }
        ensures handed { OnOk result (HandsOver A.App who bytes.now self.old self.new) }
    {
        match who {
            Who::Pinger => {
                self.node_receives(bytes, None)?;
                Ok(())
            }
            Who::FromClient(client) => {
                let to = pair_of(self.sides.as_slice(), client);
                self.node_receives(bytes, to)?;
                Ok(())
            }
            Who::FromNode(client) => {
                let tick = self.node.ticks();
                receive(
                    &mut self.sides,
                    &mut self.sent,
                    &mut self.area,
                    client,
                    bytes,
                    tick,
                )?;
                Ok(())
            }
        }
    }

    /// Delivers the datagram with this number, counted from 1.
    fn give(&mut self, number: u32) -> Result<(), NoMemory>
        ensures same { A.config self.new.node.shared ≡ A.config self.old.node.shared }
        ensures mark { self.new.mark ≡ self.old.mark }
        ensures given { OnOk result (FromHere A.App self.old
            (λ m served w. WorldRepresents A.App self.new (does m served w (Act.Give number)))) }
    {
        let Some(sent) = at_number(self.sent.as_slice(), number as usize) else {
            return Ok(());
        };
        let who = sent.who;
        let epoch = sent.epoch;
        let bytes = sent.bytes.as_slice().to_vec(*self.sent.allocator())?;
        see(&mut self.sides, client_of(who), number, epoch);
        self.hand(who, bytes.as_slice())?;
        Ok(())
    }

    /// Delivers the datagram with this number with one byte changed.
    fn damage(&mut self, number: u32, at: u16, mask: u8) -> Result<(), NoMemory>
        requires mask { 1 ≤ mask }
        ensures same { A.config self.new.node.shared ≡ A.config self.old.node.shared }
        ensures mark { self.new.mark ≡ self.old.mark }
        ensures damaged { OnOk result (DoesAct A.App (Act.Damage number at mask) self.old self.new) }
    {
        let Some(sent) = at_number(self.sent.as_slice(), number as usize) else {
            return Ok(());
        };
        let who = sent.who;
        let mut bytes = sent.bytes.as_slice().to_vec(*self.sent.allocator())?;
        change(bytes.as_mut_slice(), usize::from(at), mask);
        self.hand(who, bytes.as_slice())?;
        Ok(())
    }

    /// Does an act that is not refused.
    /// [add: act] Its arm, and a method that does it.
    pub(crate) fn perform(&mut self, act: &Act) -> Result<(), NoMemory>
        requires act { IsAct act.now }
        ensures same { A.config self.new.node.shared ≡ A.config self.old.node.shared }
        ensures mark { self.new.mark ≡ self.old.mark }
        ensures window { (number size : ℕ) → act.now ≡ Act.Window number size → result ≡ Ok tt }
        ensures done { OnOk result (DoesAct A.App act.now self.old self.new) }
    {
        match *act {
            Act::Opens(number) => self.own(number, Own::Opens),
            Act::Again(number) => self.own(number, Own::Again),
            Act::Closes(number) => self.own(number, Own::Closes),
            Act::Aborts(number) => self.own(number, Own::Aborts),
            Act::Window(number, window) => {
                advertise_window(&mut self.sides, number, window);
                Ok(())
            }
            Act::Ping(source) => self.ping(source),
            Act::Give(number) => self.give(number),
            Act::Damage { number, at, mask } => self.damage(number, at, mask),
            Act::Tick => self.tick(),
        }
    }
}

/// Returns the client that a datagram concerns, by its sender; 0 if it concerns none.
fn client_of(who: Who) -> u8
    ensures { result ≡ client_reported who }
{
    match who {
        Who::FromClient(client) | Who::FromNode(client) => client,
        Who::Pinger => 0,
    }
}

/// Changes the byte at an offset, if there is one, by exclusive or with the mask.
fn change(bytes: &mut [u8], at: usize, mask: u8)
    ensures { bytes.new ≡ changed bytes.old at mask }
{
    if at < bytes.len() {
        bytes[at] ^= mask;
    }
}

/// Returns an echo request without payload, with identifier and number 1 (RFC 792).
#[tactic(auto, unfolding(link_world::specs::Bytes::ping_from))]
fn echo_request(source: Addr, target: Addr) -> [u8; 28]
    ensures { result ≡ ping_from source target }
{
    let mut datagram = [0u8; 28];
    datagram[20..].copy_from_slice(&[8, 0, 247, 253, 0, 1, 0, 1]);
    put_head(&mut datagram, 28, 1, Proto::Icmp, source, target);
    datagram
}
