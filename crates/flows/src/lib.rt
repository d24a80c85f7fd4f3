//! The least flows and control, and what a session reaches.
#![tactic(auto)]

mod acting;
mod control;
mod reach;
mod rights;
mod rules;
mod settling;

pub use reach::reaches;
pub use rights::entitled;
pub use settling::settle;
