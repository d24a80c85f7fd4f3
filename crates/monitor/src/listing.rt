//! Lists of requests.
ghost use Rattle.std.specs.Prelude.{◌≡◌};
ghost use Rattle.requests.specs.Answered.{Answered};
ghost use Rattle.monitor.specs.Lists.{InTurn, Listed};

use crate::record::Record;
use block::{Block, Records};
use model::{Refusal, need};
use policy::{HouseRule, LevelOrder};
use requests::answer;

/// The longest list.
const LONGEST: usize = 1024;

/// Answers the record's request, in its place.
fn answer_in_place<O: LevelOrder, R: HouseRule>(
    held: &mut Records,
    order: &O,
    rule: &R,
    entry: &mut Record,
)
    ensures stays { entry.new.request ≡ entry.old.request }
    ensures answered { Answered (O.meaning order.now) (R.answers rule.now) held.old entry.old.request entry.new.answer held.new }
{
    entry.answer = answer(held, order, rule, &entry.request);
}

/// Answers the records in turn, each in its place.
fn answer_each<O: LevelOrder, R: HouseRule>(
    held: &mut Records,
    order: &O,
    rule: &R,
    records: &mut [Record],
)
    ensures { InTurn (O.meaning order.now) (R.answers rule.now) held.old records.old records.new held.new }
{
    for entry in records.iter_mut() {
        answer_in_place(held, order, rule, entry);
    }
}

/// Answers a list of up to 1,024 records in turn, like single requests, each answer in its place. A refused list is left as
/// it was, and so is the block.
pub(crate) fn answer_list<O: LevelOrder, R: HouseRule>(
    block: &mut Block,
    order: &O,
    rule: &R,
    records: &mut [Record],
) -> Result<(), Refusal>
    ensures { Listed (O.meaning order.now) (R.answers rule.now) block.old records.old result records.new block.new }
{
    let Some(held) = &mut block.records else {
        return Err(Refusal::Blank);
    };
    need(records.len() <= LONGEST, Refusal::ListTooLong)?;
    answer_each(held, order, rule, records);
    Ok(())
}
