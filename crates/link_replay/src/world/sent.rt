//! One entry of the list of datagrams.

use link_world::Who;
use std::marker::Model;

/// A datagram that was sent.
#[derive(Debug, Drop)]
pub struct Sent {
    /// Its sender; for a datagram of the node, the client that it goes to.
    pub who: Who,
    /// The node's ticks when it was sent.
    pub tick: u32,
    /// The client's epoch at the end of the step that sent it; 0 if it concerns no client.
    pub epoch: u32,
    /// The node retransmitted what was outstanding.
    pub again: bool,
    pub bytes: Vec<u8>,
}

impl Model for Sent {
    ghost use Rattle.link_replay.specs.Plain.{CodeSent};

    ghost Value = { CodeSent };

    ghost view = { λ sent. record { who = sent.who; tick = sent.tick; epoch = sent.epoch; again = sent.again; bytes = sent.bytes.items } };
}
