//! A client of the world, and the record of what it received.

use link_client::Client;
use std::marker::Model;

/// A client of a replay, and its record.
#[derive(Debug, Drop)]
pub struct Side {
    pub client: Client,
    pub request: Vec<u8>,
    /// The bytes of its page that it accepted.
    pub received: Vec<u8>,
    /// How often the server's connection with it has become CLOSED.
    pub epoch: u32,
    /// The number of the first stale datagram that was delivered from or to it.
    pub first_stale: Option<u32>,
}

impl Model for Side {
    ghost use Rattle.link_replay.specs.Plain.{CodeSide};

    ghost Value = { CodeSide };

    ghost view = { λ side. record {
      client = side.client;
      request = side.request.items;
      received = side.received.items;
      epoch = side.epoch;
      first_stale = side.first_stale;
    } };
}
