//! The protosocket of a connection (Dunkels 2006): the threads that receive a word of a request and that send the pieces of a
//! reply. Each is a value that is its own resume point and is passed no allocator. A thread that sends text makes identical
//! bytes until they are acknowledged.
#![tactic(auto)]

mod close_out;
mod gen_out;
mod laws;
mod line_in;
mod send_out;
mod stops;

pub use close_out::CloseOut;
pub use gen_out::GenOut;
pub use laws::receives_in_pieces;
pub use line_in::LineIn;
pub use send_out::SendOut;
pub use stops::Stops;

#[cfg(test)]
mod tests;
