//! The answer to a request, and the records after it.
ghost use Rattle.std.specs.Prelude.{◌≡◌};
ghost use Rattle.block.specs.Reading.{state};
ghost use Rattle.model.specs.Flows.{Settles};
ghost use Rattle.requests.specs.Answered.{Answered};

use crate::check::check;
use crate::effect::carry_out;
use block::Records;
use flows::settle;
use model::{Refusal, Request};
use policy::{HouseRule, LevelOrder};

/// Lets flows and control follow from what is written.
fn follow(records: &mut Records)
    ensures { Settles (state records.old) (state records.new) }
{
    settle(&mut records.relations, &records.tables);
}

/// Answers a request on the records of a started block: refused by the first need that fails, with nothing written, or else accepted.
pub fn answer<O: LevelOrder, R: HouseRule>(
    records: &mut Records,
    order: &O,
    rule: &R,
    q: &Request,
) -> Result<(), Refusal>
    ensures { Answered (O.meaning order.now) (R.answers rule.now) records.old q.now result records.new }
{
    let kind = check(records, order, rule, q)?;
    carry_out(records, q, kind);
    follow(records);
    Ok(())
}
