//! Reading the start text, and writing numbers and report lines.
#![tactic(auto)]

pub mod input;
pub mod numbers;
pub mod part;
pub mod reader;
pub mod reading;
pub mod record;
pub mod request;
pub mod walk;
pub mod writer;
