//! The report on a site's image: a line for each of its files, or the line of its first fault.
#![tactic(auto)]

mod report_text;

pub use file_tree::{SiteError, SiteWhy};
pub use report_text::{bad_line, report, why_word};
