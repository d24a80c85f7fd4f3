//! Level orders, which compare the levels of items, and house rules, which may keep a session from taking a role.
#![tactic(auto)]

mod order;
mod pair;
mod role;
mod rule;

pub use order::{Badges, Ladder, LevelOrder, worked_orders};
pub use pair::Pair;
pub use role::{has_role, with_role};
pub use rule::{HouseRule, Quota, Separation};
