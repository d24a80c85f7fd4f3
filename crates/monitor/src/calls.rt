//! The calls that a host makes. Each states its one outcome, and the laws of every history that it lengthens.
//! Block, order and rule are three parameters: a host owns them apart, and a question takes no rule.
ghost use Rattle.std.specs.Prelude.{[], ◌∷◌, OnOk};
ghost use Rattle.policy.specs.Order.{Order, Lawful};
ghost use Rattle.policy.specs.Rule.{Rule};
ghost use Rattle.reports.specs.Report.{Reports};
ghost use Rattle.start.specs.Starts.{Start};
ghost use Rattle.monitor.specs.Calls.{Requested};
ghost use Rattle.monitor.specs.Lists.{Listed, asked, told};
ghost use Rattle.monitor.specs.Questions.{Asked};
ghost use Rattle.monitor.specs.Laws.{Laws, LawsAfter, LawsStay};

use crate::asking::ask;
use crate::listing::answer_list;
use crate::record::Record;
use crate::topic::Question;
use block::Block;
use model::{Refusal, Request, StartRefusal};
use policy::{HouseRule, LevelOrder};
use reports::report as write_report;
use requests::answer;
use start::start as start_blank;

/// Starts a blank block from a start text. A block that is started already, and a text that is refused, leave it as it was.
pub fn start<O: LevelOrder, R: HouseRule>(
    block: &mut Block,
    order: &O,
    rule: &R,
    text: &[u8],
) -> Result<(), StartRefusal>
    ensures outcome { Start (O.meaning order.now) (R.answers rule.now) block.old text.now result block.new }
    ensures begins { OnOk result (Laws (O.meaning order.now) (R.answers rule.now) text.now [] [] block.new) }
    ensures laws { LawsStay (O.meaning order.now) (R.answers rule.now) block.old block.new }
{
    start_blank(block, order, rule, text)
}

fn answer_one<O: LevelOrder, R: HouseRule>(
    block: &mut Block,
    order: &O,
    rule: &R,
    q: &Request,
) -> Result<(), Refusal>
    ensures { Requested (O.meaning order.now) (R.answers rule.now) block.old q.now result block.new }
{
    let Some(records) = &mut block.records else {
        return Err(Refusal::Blank);
    };
    answer(records, order, rule, q)
}

/// Answers a request. A blank block, and a request that is refused, leave the block as it was.
pub fn request<O: LevelOrder, R: HouseRule>(
    block: &mut Block,
    order: &O,
    rule: &R,
    q: &Request,
) -> Result<(), Refusal>
    ensures outcome { Requested (O.meaning order.now) (R.answers rule.now) block.old q.now result block.new }
    ensures laws { LawsAfter (O.meaning order.now) (R.answers rule.now) block.old (q.now ∷ []) (result ∷ []) block.new }
{
    answer_one(block, order, rule, q)
}

/// Answers a list of up to 1,024 records in turn, like single requests, each answer in its place. A list that is refused is
/// left as it was, and so is the block.
pub fn list<O: LevelOrder, R: HouseRule>(
    block: &mut Block,
    order: &O,
    rule: &R,
    records: &mut [Record],
) -> Result<(), Refusal>
    ensures outcome { Listed (O.meaning order.now) (R.answers rule.now) block.old records.old result records.new block.new }
    ensures laws { LawsAfter (O.meaning order.now) (R.answers rule.now) block.old (asked result records.old) (told result records.new) block.new }
{
    answer_list(block, order, rule, records)
}

/// Answers a question: yes exactly if the relation stands between live items. The block is only read.
pub fn question<O: LevelOrder>(block: &Block, order: &O, q: &Question) -> Result<bool, Refusal>
    ensures outcome { Asked (O.meaning order.now) block.now q.now result }
    ensures laws { (h : Rule) → LawsStay (O.meaning order.now) h block.now block.now }
{
    ask(block, order, q)
}

/// Writes who could ever control whom into the buffer, and answers the report's length; the rest of the buffer stays. A blank
/// block and a buffer that is too short are refused, and leave the buffer as it was. The block is only read.
pub fn report(block: &Block, buffer: &mut [u8]) -> Result<usize, Refusal>
    ensures outcome { Reports block.now buffer.old result buffer.new }
    ensures laws { (o : Order) (h : Rule) → Lawful o → LawsStay o h block.now block.now }
{
    write_report(block, buffer)
}
