//! A shell over Telnet (RFC 854): what a list of bytes means, and what the shell replies.
#![tactic(auto)]

mod command;
mod desk;
mod laws;
mod reply_text;
mod shell;
mod telnet_input;

pub use command::Command;
pub use desk::Desk;
pub use laws::{
    constant_values, desk_is_two_applications, desk_speaks_on_lines, sequences_are_read,
    shell_is_exact, shell_keeps_its_session, shell_laws, worked_sessions,
};
pub use shell::{Shell, TELNET_PORT};

/// After this number of ticks with nothing outstanding and no other event between them, the connection is given up.
pub const MOST_SILENT_POLLS: u16 = 1200;

/// The greatest number of commands that are not wholly acknowledged.
pub const MOST_COMMANDS: usize = 32;

/// The greatest number of bytes of a line that are stored. No command is as long.
pub const LONGEST_LINE: usize = 16;

#[cfg(test)]
mod tests;
