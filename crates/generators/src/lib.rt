//! The text of the functions of a script. A call is first captured as one record, and all its bytes are made from that record,
//! so a retransmission is identical. No call is passed an allocator.
#![tactic(auto)]

mod call_record;
mod capture;
mod cells;
mod laws;
mod numbers;
mod packed;
mod packed_rows;
mod parts;
mod rows;
mod slices;
mod text;
mod uip;
mod written;

pub use call_record::CallRecord;
pub use capture::{Capture, take};
pub use laws::texts_are_short;
pub use packed::pack_rows;
pub use packed_rows::{PackedRow, PackedRows};
pub use slices::{counters_len, fill_counters, fill_number, fill_rows, number_len, rows_len};
pub use text::{fill_at, text_len};

#[cfg(test)]
mod tests;
