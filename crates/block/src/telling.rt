//! The state tells all that records hold, and so all that a block holds.
ghost use Rattle.std.specs.Prelude.{◌≡◌};
ghost use Rattle.block.specs.Reading.{state};
ghost use Rattle.block.specs.Lent.{started, block_state};

use crate::block::Block;
use crate::records::Records;

/// Two records of one state are equal.
pub fn state_tells_all(a: &Records, b: &Records)
    ensures { state a.now ≡ state b.now → a.now ≡ b.now }
{
    // An element that is read tells how long the tables are and how wide the sets.
    let _ = a.tables.sessions[0];
    let _ = b.tables.sessions[0];
}

/// Two blocks of one state are equal, if both are started or neither is.
pub fn block_state_tells_all(a: &Block, b: &Block)
    ensures { started a.now ≡ started b.now → block_state a.now ≡ block_state b.now → a.now ≡ b.now }
{
    match (&a.records, &b.records) {
        (Some(x), Some(y)) => state_tells_all(x, y),
        _ => {}
    }
}
