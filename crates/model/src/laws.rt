//! The laws over whole runs, for every level order and every house rule.
ghost use Rattle.model.specs.Laws.{Isolation, OneOutcome, Replay};

use policy::{HouseRule, LevelOrder};

/// The rules leave one answer to a request, and one state after it.
pub fn one_outcome_stands<O: LevelOrder, R: HouseRule>(o: &O, r: &R)
    ensures { OneOutcome (O.meaning o.now) (R.answers r.now) }
{}

/// A run without its withdrawals is accepted throughout, and all that the run led to stands after it.
pub fn replay_stands<O: LevelOrder, R: HouseRule>(o: &O, r: &R)
    ensures { Replay (O.meaning o.now) (R.answers r.now) }
{}

/// Nothing at or above a level changes but by an accepted request from there.
pub fn isolation_stands<O: LevelOrder, R: HouseRule>(o: &O, r: &R)
    ensures { Isolation (O.meaning o.now) (R.answers r.now) }
{}
