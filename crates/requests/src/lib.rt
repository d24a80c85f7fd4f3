//! Requests: what each kind needs, and what an accepted one does.
#![tactic(auto)]

mod answering;
mod check;
mod effect;
mod form;
mod items;
mod rows;
mod words;

pub use answering::answer;
pub use form::{admits, idle, suits};
