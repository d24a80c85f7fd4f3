//! The two laws, of every history under every level order and every house rule.
ghost use Rattle.monitor.specs.Laws.{Replay, Isolation};

use policy::{HouseRule, LevelOrder};

/// Taking back never opens a door.
pub fn replay_stands<O: LevelOrder, R: HouseRule>(order: &O, rule: &R)
    ensures { Replay (O.meaning order.now) (R.answers rule.now) }
{}

/// A level is changed from there alone.
pub fn isolation_stands<O: LevelOrder, R: HouseRule>(order: &O, rule: &R)
    ensures { Isolation (O.meaning order.now) (R.answers rule.now) }
{}
