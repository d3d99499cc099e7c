//! The retransmission timer of one connection. It counts ticks down to the next retransmission of what is outstanding, waits longer each
//! time, and gives up after a limit. RFC 793, section 3.7 leaves the times to the implementation; these are uIP's back-off from a fixed
//! first value of three ticks. `specs/Ages.antt` has them as a list of ages.
#![tactic(auto)]

mod laws;
mod timer;

pub use laws::constant_values;
pub use timer::{Beat, FIRST_COUNT, SYN_ACK_LIMIT, TEXT_LIMIT, Timer};
