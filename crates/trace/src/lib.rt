//! Dumps and captures of serial lines: `dump` writes a line of text for each frame, `pcap` a capture file of the datagrams, and
//! `slip` converts a capture file back to a serial line. The output is defined over the whole list of items that were consumed,
//! however the link cuts them. No call is passed an allocator.
#![tactic(auto)]

mod area;
mod byte_order;
mod dump_line;
mod fields;
mod form;
mod laws;
mod line_dump;
mod line_loop;
mod line_reader;
mod reader;
mod record;
mod slip_conversion;
mod slip_end;
mod stage;
mod watch;

pub use laws::{
    constant_values, lines_come_back, read_in_one_way, records_are_datagrams, slip_end_is_reported,
};
pub use line_dump::{dump, pcap};
pub use slip_conversion::slip;
pub use slip_end::{CaptureWhy, SlipEnd};
