//! The interface between a connection and its application: the events of a connection as calls of the trait `App`, and the plain data of
//! these calls. Each application defines what its calls do as one record over plain data, so that the transport above is proved once for
//! all applications.
#![tactic(auto)]

mod app;
mod ending;
mod fixed;
mod now;
mod row;
mod state;
mod want;

pub use app::App;
pub use ending::Ending;
pub use fixed::Fixed;
pub use now::Now;
pub use row::{Row, RowList};
pub use state::State;
pub use want::Want;
