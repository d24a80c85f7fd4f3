//! The second reading of a start text, and the records that it fills.
#![tactic(auto)]

mod define;
pub mod laws;
mod lines;
mod second;
mod starting;
mod words;

pub use starting::start;
