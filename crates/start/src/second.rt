//! The second reading of a start text.
ghost use Rattle.std.specs.Prelude.{◌≡◌, List};
ghost use Rattle.block.specs.Reading.{state};
ghost use Rattle.block.specs.Writing.{empty};
ghost use Rattle.text.specs.Lines.{Accepted};
ghost use Rattle.start.specs.Setup.{listed};
ghost use Rattle.start.specs.Starts.{Second};

use crate::define::define;
use crate::lines::judge;
use block::Records;
use model::StartRefusal;
use policy::{HouseRule, LevelOrder};
use text::record::Line;
use text::walk::lines;

/// Fills empty records with what the lines of an accepted text define.
pub(crate) fn fill(text: &[u8], all: &mut Records)
    ensures { (ls : List Line) → Accepted text.now ls → state all.old ≡ empty → state all.new ≡ listed ls }
{
    for (_, line) in lines(text) {
        define(all, line);
    }
}

/// Tries the needs of each line, where all lines define `all`; `earlier` begins empty.
pub(crate) fn second_reading<O: LevelOrder, R: HouseRule>(
    order: &O,
    rule: &R,
    text: &[u8],
    all: &Records,
    earlier: &mut Records,
) -> Result<(), StartRefusal>
    ensures { (ls : List Line) → Accepted text.now ls → state all.now ≡ listed ls → state earlier.old ≡ empty → Second (O.meaning order.now) (R.answers rule.now) ls result }
{
    for (number, line) in lines(text) {
        judge(order, rule, all, earlier, line).map_err(|refusal| StartRefusal {
            refusal,
            line: number,
        })?;
        define(earlier, line);
    }
    Ok(())
}
