//! A world and its acts.

ghost use Rattle.std.specs.Prelude.{◌≡◌, All, Err, IfErr, Ok, OnErr, false, true, ℕ};
ghost use Rattle.link_world.specs.Acts.{acts as acted, runs};
ghost use Rattle.link_world.specs.Schedule.{acts_of as lines_acts, plays_line};
ghost use Rattle.link_world.specs.Prelude.{IsAct, OfLine};
ghost use Rattle.link_replay.specs.Prelude.{FromHere, WorldRepresents};
ghost use Rattle.link_replay.specs.Reaching.{ActsEnd, IsNamed, ActSteps, Stops};

use crate::world::faults::fault_of;
use crate::world::line_acts::{acts_of, mark_after};
use crate::world::sent::Sent;
use crate::world::side::Side;
use app_events::App;
use httpd::Httpd;
use link_schedule::Event;
use link_world::{Act, StepFault};
use std::marker::Model;
use uip_node::Node;

pub(crate) mod act_effects;
pub(crate) mod before_call;
pub(crate) mod call_effects;
pub(crate) mod client_acts;
pub(crate) mod client_steps;
pub(crate) mod faults;
pub(crate) mod initial;
pub(crate) mod line_acts;
pub(crate) mod marks;
pub(crate) mod numbers;
pub(crate) mod readers;
pub(crate) mod schedule_play;
pub(crate) mod sent;
pub(crate) mod sent_list;
pub(crate) mod side;
pub(crate) mod site_facts;
pub(crate) mod socket_pair;
pub(crate) mod sockets;
pub(crate) mod value_facts;

/// The world of a replay, for any application.
#[derive(Drop)]
pub struct WorldOf<A: App> {
    pub node: Node<A>,
    /// The clients, numbered from 1.
    pub sides: Vec<Side>,
    /// Every datagram that was sent, numbered from 1.
    pub sent: Vec<Sent>,
    /// The highest number that a round has passed.
    pub mark: u32,
    /// An allocation failed in an act: the world represents none over plain data any more.
    pub spent: bool,
    /// Where a client writes what it sends.
    pub area: Vec<u8>,
}

impl<A: App> Model for WorldOf<A> {
    ghost use Rattle.link_replay.specs.State.{CodeWorld, link_of};
    ghost use Rattle.link_replay.specs.Represents.{IsWellFormedWorld};

    ghost Value = { CodeWorld A A.Shared };

    ghost view = { λ world. record {
      node = world.node;
      link = link_of world.sides.items world.sent.items;
      mark = world.mark;
      spent = world.spent;
      area = world.area.items;
    } };

    ghost invariant = { λ world. IsWellFormedWorld (link_of world.sides.items world.sent.items) world.area.items };
}

/// The world of a replay with the web server of a site.
pub type World = WorldOf<Httpd>;

impl<A: App> WorldOf<A> {
    /// Does one act. After a refusal other than NoMemory the world is as it was. After NoMemory it is spent, and each later act
    /// fails with NoMemory too.
    pub fn step(&mut self, act: &Act) -> Result<(), StepFault>
        requires act { IsAct act.now }
        ensures same { A.config self.new.node.shared ≡ A.config self.old.node.shared }
        ensures mark { self.new.mark ≡ self.old.mark }
        ensures spent { self.old.spent ≡ true → result ≡ Err StepFault.NoMemory }
        ensures spends { result ≡ Err StepFault.NoMemory → self.new.spent ≡ true }
        ensures refused { IfErr result (λ fault. IsNamed fault → self.new ≡ self.old) }
        ensures window { (number size : ℕ) → act.now ≡ Act.Window number size → self.old.spent ≡ false → result ≡ Ok tt }
        ensures step { FromHere A.App self.old
            (λ m served w. ActSteps (WorldRepresents A.App self.new) w result (acted m served w act.now)) }
    {
        if self.spent {
            return Err(StepFault::NoMemory);
        }
        if let Some(fault) = fault_of(self.sides.as_slice(), self.sent.as_slice(), act) {
            return Err(fault);
        }
        if self.perform(act).is_err() {
            self.spent = true;
            return Err(StepFault::NoMemory);
        }
        Ok(())
    }

    /// Does acts in turn, up to the first that is refused.
    fn run(&mut self, acts: &[Act]) -> Result<(), StepFault>
        requires acts { All IsAct acts.now }
        ensures same { A.config self.new.node.shared ≡ A.config self.old.node.shared }
        ensures mark { self.new.mark ≡ self.old.mark }
        ensures spends { result ≡ Err StepFault.NoMemory → self.new.spent ≡ true }
        ensures stops { FromHere A.App self.old (λ m served w. Stops m served (WorldRepresents A.App self.new) acts.now w result) }
        ensures run { FromHere A.App self.old
            (λ m served w. ActsEnd (WorldRepresents A.App self.new) result (runs m served acts.now w)) }
    {
        for act in acts.iter() {
            self.step(act)?;
        }
        Ok(())
    }

    /// Does the acts of a line in turn, up to the first that is refused; then the mark moves. After a refusal other than
    /// NoMemory, the acts before it were done, and the mark is as before the line.
    pub fn line(&mut self, event: &Event) -> Result<(), StepFault>
        requires event { OfLine IsAct event.now }
        ensures same { A.config self.new.node.shared ≡ A.config self.old.node.shared }
        ensures mark { OnErr result (self.new.mark ≡ self.old.mark) }
        ensures spent { self.old.spent ≡ true → result ≡ Err StepFault.NoMemory }
        ensures spends { result ≡ Err StepFault.NoMemory → self.new.spent ≡ true }
        ensures stops { FromHere A.App self.old
            (λ m served w. Stops m served (WorldRepresents A.App self.new) (lines_acts w event.now) w result) }
        ensures line { FromHere A.App self.old
            (λ m served w. ActsEnd (WorldRepresents A.App self.new) result (plays_line m served w event.now)) }
    {
        if self.spent {
            return Err(StepFault::NoMemory);
        }
        let mark = self.mark;
        let sent = self.sent.len() as u32;
        let Ok(acts) = acts_of(*self.sent.allocator(), event, mark, sent) else {
            self.spent = true;
            return Err(StepFault::NoMemory);
        };
        self.run(acts.as_slice())?;
        self.mark = mark_after(event, mark, sent);
        Ok(())
    }
}
