//! Which pairs the report has.
ghost use Rattle.std.specs.Prelude.{◌≡◌};
ghost use Rattle.block.specs.Reading.{state};
ghost use Rattle.reports.specs.Report.{controls};

use block::Records;
use model::Fact;

/// Whether session s controls t, which is another.
pub(crate) fn has_pair(records: &Records, s: u32, t: u32) -> bool
    ensures { result ≡ controls (state records.now) s t }
{
    s != t && records.stands(Fact::Control(s, t))
}
