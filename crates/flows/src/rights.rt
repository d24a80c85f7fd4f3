//! What the roles of a session have rights to.
ghost use Rattle.std.specs.Prelude.{◌≡◌, ℕ, ◌<◌, Decides};
ghost use Rattle.sets.specs.Member.{in_set};
ghost use Rattle.model.specs.Needs.{Entitled, Passes};
ghost use Rattle.block.specs.Reading.{state};

use block::Records;
use model::Mode;
use policy::LevelOrder;
use sets::Set256;

/// Whether a role that `x` holds has the right on `y`.
pub fn entitled(records: &Records, x: u32, y: u32, mode: Mode) -> bool
    ensures { Decides result (Entitled (state records.now) x y mode) }
{
    if x > 63 {
        return false;
    }
    if y > 255 {
        return false;
    }
    let tables = &records.tables;
    tables
        .held
        .row(x as usize)
        .meets(tables.rights[mode as usize].row(y as usize))
}

/// Whether the container `c` passes for `x`.
fn passes<O: LevelOrder>(records: &Records, order: &O, x: u32, c: u32) -> bool
    ensures { Decides result (Passes (O.meaning order.now) (state records.now) x c) }
{
    if !entitled(records, x, c, Mode::Execute) {
        return false;
    }
    let tables = &records.tables;
    if !tables.mark(c).is_some_and(|mark| mark.checked) {
        return true;
    }
    order.at_or_below(tables.level(c), tables.level(x))
}

/// The containers that pass for `x`.
pub(crate) fn passing<O: LevelOrder>(records: &Records, order: &O, x: u32) -> Set256
    ensures { (c : ℕ) → c < 256 → Decides (in_set result c) (Passes (O.meaning order.now) (state records.now) x c) }
{
    let mut all = Set256::new();
    for c in 0..256 {
        if passes(records, order, x, c as u32) {
            let _ = all.insert(c);
        }
    }
    all
}
