use std::marker::Model;

/// A file of a shelf in memory.
#[derive(Drop)]
pub struct Held {
    pub name: Vec<u8>,
    pub content: Vec<u8>,
}

impl Model for Held {
    ghost use Rattle.uip_edge.specs.Shelving.{HeldFile};

    ghost Value = { HeldFile };

    ghost view = { λ held. record { name = held.name.items; content = held.content.items } };
}
