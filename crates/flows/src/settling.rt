//! The least flows and control that contain those given and obey the rules.
ghost use Rattle.model.specs.Flows.{Settles};
ghost use Rattle.block.specs.Reading.{state_of, cards_of};
ghost use Rattle.flows.specs.Spread.{Spread, program_of};
ghost use Rattle.flows.specs.Rules.{Closed};

use crate::acting::acts_all;
use crate::control::controlled_all;
use crate::rules::{onward_all, passing_all};
use block::{Relations, Tables};

/// Every rule once, where it applies.
fn spread(relations: &mut Relations, tables: &Tables) -> bool
    ensures { Spread tables.now relations.old relations.new result (Closed (cards_of tables.now) (program_of tables.now)) }
{
    let mut grew = controlled_all(relations, tables);
    grew |= onward_all(relations);
    grew |= acts_all(relations, tables);
    grew |= passing_all(relations);
    grew
}

/// Makes these the least flows and control that contain what they were and obey the rules.
pub fn settle(relations: &mut Relations, tables: &Tables)
    ensures { Settles (state_of tables.now relations.old) (state_of tables.now relations.new) }
{
    while spread(relations, tables) {}
}
