//! The access monitor: the calls that a host makes on a block that it lends.
#![tactic(auto)]

mod asking;
mod calls;
pub mod laws;
mod listing;
pub mod record;
pub mod topic;

pub use calls::{list, question, report, request, start};
