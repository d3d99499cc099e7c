//! The commands `replay` and `load`: from the arguments of a command to the text that it writes.

pub(crate) mod command_lines;
pub(crate) mod load_command;
pub(crate) mod output_form;
pub(crate) mod replay_command;
pub(crate) mod replay_end;
pub(crate) mod text_replay;
