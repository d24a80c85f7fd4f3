//! Sets of small numbers, a bit for each, and relations of small numbers, a set for each row.
//! Each contract says which numbers the set or the row then has, so no caller sees a word.
#![tactic(auto)]

mod closing;
mod relation;
mod set;

pub use relation::Relation;
pub use set::{Set, Set64, Set256};
