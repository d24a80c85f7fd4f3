//! The report on a block: a line for each pair of sessions of which the first controls the second.
#![tactic(auto)]

mod measuring;
mod reporting;
mod selecting;
mod writing;

pub use reporting::{report, report_lists_all};
