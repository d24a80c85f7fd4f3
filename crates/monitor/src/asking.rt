//! Questions.
ghost use Rattle.std.specs.Prelude.{◌≡◌, ◌&&◌};
ghost use Rattle.block.specs.Reading.{state};
ghost use Rattle.model.specs.Judged.{Tells};
ghost use Rattle.monitor.specs.Questions.{row as row_of, ranged as is_ranged, Holds, Asked};

use crate::topic::{Question, Spans, Topic};
use block::{Block, Records};
use flows::reaches;
use model::span::{ITEM, ROLE, SESSION};
use model::{Fact, Mode, Refusal, Span, need};
use policy::LevelOrder;
use requests::{admits, idle, suits};

/// A row for each of the six questions, in their order.
// An array, and no `match`: it reads like the table of the rules.
#[rattlefmt::skip]
const ROWS: [Spans; 6] = [
    Spans { a: ROLE, b: ITEM, m: Span::Right },
    Spans { a: SESSION, b: ROLE, m: Span::Unused },
    Spans { a: SESSION, b: ITEM, m: Span::Access },
    Spans { a: ITEM, b: ITEM, m: Span::Unused },
    Spans { a: SESSION, b: SESSION, m: Span::Unused },
    Spans { a: SESSION, b: ITEM, m: Span::Unused },
];

fn row(topic: Topic) -> Spans
    ensures { result ≡ row_of topic }
{
    ROWS[topic as usize]
}

/// Each number is in its range.
fn ranged(row: &Spans, q: &Question) -> bool
    ensures { result ≡ is_ranged row.now q.now }
{
    admits(row.a, q.a) && admits(row.b, q.b) && admits(row.m, q.m) && suits(row.m, q.b, q.m)
}

/// Both items are alive.
fn alive(records: &Records, a: u32, b: u32) -> bool
    ensures { result ≡ ((state records.now).stands (Fact.Lives a) && (state records.now).stands (Fact.Lives b)) }
{
    records.stands(Fact::Lives(a)) && records.stands(Fact::Lives(b))
}

/// The relation stands between live items.
fn holds<O: LevelOrder>(
    records: &Records,
    order: &O,
    topic: Topic,
    a: u32,
    b: u32,
    mode: Mode,
) -> bool
    ensures { Tells result (Holds (O.meaning order.now) (state records.now) topic a b mode) }
{
    match topic {
        Topic::Right => records.stands(Fact::Lives(b)) && records.stands(Fact::Right(a, b, mode)),
        Topic::Held => records.stands(Fact::Lives(a)) && records.stands(Fact::Held(a, b)),
        Topic::Access => alive(records, a, b) && records.stands(Fact::Access(a, b, mode)),
        Topic::Flow => alive(records, a, b) && records.stands(Fact::Flow(a, b)),
        Topic::Control => alive(records, a, b) && records.stands(Fact::Control(a, b)),
        Topic::Reach => alive(records, a, b) && reaches(records, order, a, b),
    }
}

/// Answers a question; an item that is not alive gives no.
pub(crate) fn ask<O: LevelOrder>(block: &Block, order: &O, q: &Question) -> Result<bool, Refusal>
    ensures { Asked (O.meaning order.now) block.now q.now result }
{
    let Some(records) = &block.records else {
        return Err(Refusal::Blank);
    };
    let topic = Topic::try_from(q.q)?;
    let row = row(topic);
    need(idle(row.m, q.m), Refusal::Form)?;
    need(ranged(&row, q), Refusal::Range)?;
    Ok(holds(records, order, topic, q.a, q.b, Mode::from(q.m)))
}
