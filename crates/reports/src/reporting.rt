//! The public call.
ghost use Rattle.model.specs.Records.{State};
ghost use Rattle.reports.specs.Report.{ListsAll, Reports, pairs};

use crate::measuring::report_len;
use crate::writing::write_report;
use block::Block;
use model::{Refusal, need};

/// Writes the report into the buffer and answers its length. A blank block and a buffer that is shorter than the report
/// are refused, and the buffer then stays as it was.
pub fn report(block: &Block, buffer: &mut [u8]) -> Result<usize, Refusal>
    ensures { Reports block.now buffer.old result buffer.new }
{
    let Some(records) = &block.records else {
        return Err(Refusal::Blank);
    };
    need(report_len(records) <= buffer.len(), Refusal::BufferTooShort)?;
    Ok(write_report(records, buffer))
}

/// In every state the report lists exactly the pairs of which the first session controls the second, in ascending order.
pub fn report_lists_all()
    ensures { (S : State) → ListsAll S (pairs S) }
{}
