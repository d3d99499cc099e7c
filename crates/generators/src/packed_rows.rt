ghost use Rattle.std.specs.Prelude.{◌≤◌};

use uip_wire::{Addr, Port};

/// A row of ten bytes.
#[derive(Clone, Copy)]
pub struct PackedRow {
    pub slot: u8,
    /// The number of the state, and 16 more if something is outstanding.
    pub mark: u8,
    pub peer: Addr,
    pub port: Port,
    pub tries: u8,
    pub count: u8,
}

/// At most ten rows.
#[derive(Drop)]
pub struct PackedRows {
    pub len: u8,
    pub list: [PackedRow; 10],
    pub ghost within: { len ≤ 10 },
}
