//! The lines of the report, written into a buffer one behind the other. Buffer and place are two parameters, as in `text::writer`.
ghost use Rattle.std.specs.Prelude.{◌+◌, ◌≤◌, length};
ghost use Rattle.block.specs.Reading.{state};
ghost use Rattle.text.specs.Written.{Wrote};
ghost use Rattle.reports.specs.Report.{pair, row, report, lines};

use crate::selecting::has_pair;
use block::Records;
use text::writer::write_control_line;

/// Writes the line of the pair at `at`, if it has one; answers the place behind it.
fn write_pair(records: &Records, buffer: &mut [u8], at: usize, s: u32, t: u32) -> usize
    requires { at + length (lines (pair (state records.now) s t)) ≤ length buffer.old }
    ensures { Wrote buffer.old at buffer.new result (lines (pair (state records.now) s t)) }
{
    if has_pair(records, s, t) {
        write_control_line(buffer, at, s, t)
    } else {
        at
    }
}

/// Writes the lines of session s at `at`; answers the place behind them.
fn write_row(records: &Records, buffer: &mut [u8], at: usize, s: u32) -> usize
    requires { at + length (lines (row (state records.now) s)) ≤ length buffer.old }
    ensures { Wrote buffer.old at buffer.new result (lines (row (state records.now) s)) }
{
    let mut end = at;
    for t in 1..=63 {
        end = write_pair(records, buffer, end, s, t);
    }
    end
}

/// Writes the report from the buffer's start on; answers the place behind it.
pub(crate) fn write_report(records: &Records, buffer: &mut [u8]) -> usize
    requires { length (report (state records.now)) ≤ length buffer.old }
    ensures { Wrote buffer.old 0 buffer.new result (report (state records.now)) }
{
    let mut end = 0;
    for s in 1..=63 {
        end = write_row(records, buffer, end, s);
    }
    end
}
