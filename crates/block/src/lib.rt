//! The block that a host lends: plain tables, and the flows and control over them.
#![tactic(auto)]

mod blank;
mod block;
mod forgetting;
mod reading;
mod recording;
mod records;
mod relations;
mod tables;
mod telling;
mod writing;

pub use block::Block;
pub use records::Records;
pub use relations::Relations;
pub use tables::{Session, Tables};
pub use telling::{block_state_tells_all, state_tells_all};
