//! The web server: an application whose text is the page of the request that it received. A connection keeps an offset in its page and the
//! record of one call, and no byte that it sent. Each byte is generated from the site again until it is acknowledged. A script is read from
//! the offset on; there is no table of its pieces.
#![tactic(auto)]

mod compact;
mod httpd;
mod next_span;
mod reply;
mod request;
mod span;
mod stage;
mod texts;
mod thread;
mod web;
mod zero;

pub use compact::CompactPages;
pub use httpd::{Httpd, Pages};
pub use stage::Stage;
pub use thread::Thread;
pub use web::{Web, WebOf};
pub use zero::page_zero;
