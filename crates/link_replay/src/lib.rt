//! Replays. The world of a replay is the real node, its clients, and every datagram that was sent. The lines of a schedule are
//! done act by act, and `specs/` ties each act to the world over plain data of `link_world`. The result is a report or one
//! line. The image of a site and the text of a schedule are read from a shelf. The contract of `replay` has the guarantee: what
//! each client received.
#![tactic(auto)]

mod commands;
mod headline;
mod laws;
mod report;
mod world;

pub use commands::load_command::load;
pub use commands::replay_command::replay;
pub use commands::replay_end::ReplayEnd;
pub use file_tree::{SiteError, SiteWhy};
pub use headline::{honest_pages, losing_pages, pages_are_received, worked_replays};
pub use laws::{
    abort_and_close_apart, damage_loses, hits_are_counted, honest_replay, honest_web_peer,
    load_is_reported, lossy_web_peer, only_full, replay_is_reported, worked_reports,
    worked_summaries,
};
pub use link_schedule::{ClientPlan, Event, Line, ReadSchedule, Schedule, Why};
pub use link_world::{Act, StepFault, Who};
pub use report::kind::Kind;
pub use report::tally::Tally;
pub use world::schedule_play::play;
pub use world::sent::Sent;
pub use world::side::Side;
pub use world::socket_pair::SocketPair;
pub use world::{World, WorldOf};
