//! The commands for images of sites: check one, pack files into one, upgrade one, and write a page of one. Files are read from
//! a shelf. Each text except a page is complete before any of it is written to the sink, so after a fault the sink is
//! unchanged.
#![tactic(auto)]

mod check_command;
mod file_list;
mod finish;
mod halt;
mod image_output;
mod laws;
mod named_file;
mod outcome;
mod pack_command;
mod page_command;
mod site_end;
mod upgrade_command;

pub use check_command::check;
pub use file_tree::{KindWord, SiteError, SiteWhy};
pub use laws::ends_as_due;
pub use named_file::NamedFile;
pub use pack_command::pack;
pub use page_command::page;
pub use site_end::SiteEnd;
pub use upgrade_command::upgrade;
