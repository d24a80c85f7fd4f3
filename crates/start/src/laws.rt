//! The laws of starts, for every level order and every house rule.
ghost use Rattle.start.specs.Laws.{OneStart, SoundStart};

use policy::{HouseRule, LevelOrder};

/// The state that an accepted text begins keeps to the level conditions, and all that follows stands in it.
pub fn start_is_sound<O: LevelOrder, R: HouseRule>(o: &O, r: &R)
    ensures { SoundStart (O.meaning o.now) (R.answers r.now) }
{}

/// A text leaves one answer at a block, and one state after it.
pub fn one_start<O: LevelOrder, R: HouseRule>(o: &O, r: &R)
    ensures { OneStart (O.meaning o.now) (R.answers r.now) }
{}
