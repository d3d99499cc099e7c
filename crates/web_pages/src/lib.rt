//! The pages of a site, as definitions: what a request names, the pieces of a reply, the page of a request and its snapshots,
//! and what each call does to a connection of the web server. `httpd` has the code that sends these pages, byte for byte.
#![tactic(auto)]

mod laws;

pub use laws::{
    constant_values, decisions_stay, page_laws, pages_are_bytes, pages_of_any_calls,
    pages_within_greatest, reported_by_words, upgrade_keeps_pages, worked_pages, worked_requests,
};

/// After this number of ticks with nothing outstanding and no other event between them, the connection is given up.
pub const MOST_POLLS: u8 = 20;

/// The greatest number of bytes that are offered to be sent at once, the node's own maximum segment size.
pub const LARGEST_SEGMENT: usize = 1460;
