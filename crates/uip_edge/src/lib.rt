//! The outside of the stack as traits: a shelf to read files from, a link to receive bytes from and a sink to write bytes to. Each counts
//! its faults, so that every failure has a cause that a caller can see. Its content may be known, so that a contract can state every byte.
//! Implementations in memory serve the tests and the replays.
#![tactic(auto)]

mod failed;
mod got;
mod held;
mod item;
mod link;
mod mem_link;
mod mem_shelf;
mod mem_sink;
mod no_memory;
mod null_sink;
mod serve_end;
mod shelf;
mod sink;
mod sure_link;
mod turn;

pub use failed::Failed;
pub use got::Got;
pub use held::Held;
pub use item::Item;
pub use link::Link;
pub use mem_link::MemLink;
pub use mem_shelf::MemShelf;
pub use mem_sink::MemSink;
pub use no_memory::NoMemory;
pub use null_sink::NullSink;
pub use serve_end::ServeEnd;
pub use shelf::Shelf;
pub use sink::Sink;
pub use sure_link::SureLink;
pub use turn::Turn;
