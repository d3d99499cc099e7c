use uip_wire::Addr;

/// What one line of a schedule states.
/// [add: schedule-line] A variant.
#[derive(Clone, Copy, Debug, PartialEq, Eq)]
pub enum Event {
    Opens(u8),
    Again(u8),
    Closes(u8),
    Aborts(u8),
    Window(u8, u16),
    Ping(Addr),
    Give(u32),
    Damage { number: u32, at: u16, mask: u8 },
    /// A number of ticks.
    Tick(u16),
    /// Each datagram past the mark is delivered in order.
    Round,
    /// The same, each of them twice in a row.
    Twice,
    /// The same, from the highest number down.
    Reverse,
    /// The same, but only those with an odd number.
    Half,
    /// None of them is delivered.
    Lose,
}
