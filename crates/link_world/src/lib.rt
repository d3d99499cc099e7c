//! The world of a replay over plain data: one node, its clients, and every datagram that was ever sent. A schedule delivers,
//! repeats, reorders, damages or loses these. `specs/` has the definitions and the laws about them; each law is the clause of a
//! function here.
#![tactic(auto)]

mod act;
mod laws;
mod step_fault;
mod who;

pub use act::Act;
pub use laws::{
    acknowledged_later, again_exactly, again_exactly_plainly, bytes_are_read, captures_fit,
    clean_parts, damage_is_loss, damage_is_loss_there, epochs_are_few, honest_link, lines_are_acts,
    losing_link, mark_is_low, none_is_empty, one_connection, one_segment, prefix_and_whole,
    same_bytes, same_bytes_plainly, sent_to_clients, sides_as_planned, text_numbers,
    texts_are_short, tick,
};
pub use step_fault::StepFault;
pub use who::Who;
