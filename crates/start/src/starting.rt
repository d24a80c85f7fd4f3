//! A start: both readings of the text, and the records that it begins.
ghost use Rattle.std.specs.Prelude.{◌≡◌};
ghost use Rattle.block.specs.Reading.{state};
ghost use Rattle.block.specs.Writing.{empty};
ghost use Rattle.start.specs.Starts.{Start, Reads, refusal_for};

use crate::second::{fill, second_reading};
use block::{Block, Records};
use flows::settle;
use model::{Refusal, StartRefusal};
use policy::{HouseRule, LevelOrder};
use text::reading::first_reading;
use text::record::Fault;

// No `From`: both types are of crates below this one.
/// What a start says of a refusal of the first reading.
fn refusal_of(at: text::record::Refusal) -> StartRefusal
    ensures { result ≡ record { refusal = refusal_for at.fault; line = at.line } }
{
    let refusal = match at.fault {
        Fault::Size => Refusal::TextTooLong,
        Fault::Form => Refusal::LineForm,
        Fault::Order => Refusal::LineOrder,
        Fault::Range => Refusal::LineRange,
    };
    StartRefusal {
        refusal,
        line: at.line,
    }
}

/// Both readings of a text, into empty records: the records that the text begins, or why it is refused.
fn read<O: LevelOrder, R: HouseRule>(
    order: &O,
    rule: &R,
    text: &[u8],
    all: &mut Records,
) -> Result<(), StartRefusal>
    requires { state all.old ≡ empty }
    ensures { Reads (O.meaning order.now) (R.answers rule.now) text.now result (state all.new) }
{
    first_reading(text).map_err(refusal_of)?;
    fill(text, all);
    let mut earlier = Records::new();
    second_reading(order, rule, text, all, &mut earlier)?;
    settle(&mut all.relations, &all.tables);
    Ok(())
}

/// Starts a blank block from a text; a started block, and a text that is refused, leave it as it was.
pub fn start<O: LevelOrder, R: HouseRule>(
    block: &mut Block,
    order: &O,
    rule: &R,
    text: &[u8],
) -> Result<(), StartRefusal>
    ensures { Start (O.meaning order.now) (R.answers rule.now) block.old text.now result block.new }
{
    if block.records.is_some() {
        return Err(Refusal::Started.into());
    }
    let mut all = Records::new();
    read(order, rule, text, &mut all)?;
    block.records = Some(all);
    Ok(())
}
