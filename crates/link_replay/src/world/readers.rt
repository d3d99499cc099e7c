//! Reads the clients and datagrams of a world.

ghost use Rattle.std.specs.Prelude.{◌≡◌, ◌≤◌, Some, is_none, length, option_map};
ghost use Rattle.link_client.specs.Prelude.{abstract_client};
ghost use Rattle.link_world.specs.World.{Side as PlainSide, World as PlainWorld, is_clean, numbered};
ghost use Rattle.uip_node.specs.Prelude.{ticks_of};
ghost use Rattle.link_replay.specs.Prelude.{SideRepresents, WorldRepresents};

use crate::world::WorldOf;
use crate::world::sent::Sent;
use crate::world::side::Side;
use app_events::App;
use link_client::Client;

impl<A: App> WorldOf<A> {
    /// Returns the client with this number, counted from 1, and its record.
    pub fn side(&self, number: u8) -> &Side
        requires least { 1 ≤ number }
        requires most { number ≤ length self.now.link.sides }
        ensures shows { numbered self.now.link.sides number ≡ Some result.now }
        ensures represented { (w : PlainWorld) (s : PlainSide) → WorldRepresents A.App self.now w → numbered w.sides number ≡ Some s
            → SideRepresents result.now s }
    {
        &self.sides[usize::from(number) - 1]
    }

    /// Returns the client with this number, counted from 1.
    pub fn client(&self, number: u8) -> &Client
        requires least { 1 ≤ number }
        requires most { number ≤ length self.now.link.sides }
        ensures shows { option_map (λ side. side.client) (numbered self.now.link.sides number) ≡ Some result.now }
        ensures represented { (w : PlainWorld) (s : PlainSide) → WorldRepresents A.App self.now w → numbered w.sides number ≡ Some s
            → abstract_client result.now s.client.request s.client.received ≡ s.client }
    {
        let found = self.side(number);
        &found.client
    }

    /// Returns the bytes of its page that the client with this number accepted.
    pub fn received(&self, number: u8) -> &[u8]
        requires least { 1 ≤ number }
        requires most { number ≤ length self.now.link.sides }
        ensures shows { option_map (λ side. side.received) (numbered self.now.link.sides number) ≡ Some result.now }
        ensures represented { (w : PlainWorld) (s : PlainSide) → WorldRepresents A.App self.now w → numbered w.sides number ≡ Some s
            → result.now ≡ s.client.received }
    {
        let found = self.side(number);
        found.received.as_slice()
    }

    /// Returns whether no stale datagram was delivered from or to the client with this number.
    pub fn clean(&self, number: u8) -> bool
        requires least { 1 ≤ number }
        requires most { number ≤ length self.now.link.sides }
        ensures shows { option_map (λ side. is_none side.first_stale) (numbered self.now.link.sides number) ≡ Some result }
        ensures represented { (w : PlainWorld) (s : PlainSide) → WorldRepresents A.App self.now w
            → numbered w.sides number ≡ Some s → result ≡ is_clean s }
    {
        let found = self.side(number);
        found.first_stale.is_none()
    }

    /// Returns the number of the first stale datagram that was delivered from or to the client with this number.
    pub fn first_stale(&self, number: u8) -> Option<u32>
        requires least { 1 ≤ number }
        requires most { number ≤ length self.now.link.sides }
        ensures shows { option_map (λ side. side.first_stale) (numbered self.now.link.sides number) ≡ Some result }
        ensures represented { (w : PlainWorld) (s : PlainSide) → WorldRepresents A.App self.now w → numbered w.sides number ≡ Some s
            → result ≡ s.first_stale }
    {
        let found = self.side(number);
        found.first_stale
    }

    /// Returns every datagram that was sent, numbered from 1.
    pub fn sent(&self) -> &[Sent]
        ensures { result.now ≡ self.now.link.sent }
    {
        self.sent.as_slice()
    }

    /// Returns the ticks so far, modulo 2^32.
    pub fn ticks(&self) -> u32
        ensures shows { result ≡ self.now.node.counts.ticks }
        ensures represented { (w : PlainWorld) → WorldRepresents A.App self.now w → result ≡ ticks_of w.node.history }
    {
        self.node.ticks()
    }
}
