//! How long the report is.
ghost use Rattle.std.specs.Prelude.{◌≡◌, ◌≤◌, length};
ghost use Rattle.block.specs.Reading.{state};
ghost use Rattle.reports.specs.Report.{pair, row, report, lines};

use crate::selecting::has_pair;
use block::Records;
use text::writer::control_line_len;

/// How long the line of the pair is, 0 if it has none.
fn pair_len(records: &Records, s: u32, t: u32) -> usize
    ensures value { result ≡ length (lines (pair (state records.now) s t)) }
    ensures few { result ≤ 30 }
{
    if has_pair(records, s, t) {
        control_line_len(s, t)
    } else {
        0
    }
}

/// How long the lines of session s are.
fn row_len(records: &Records, s: u32) -> usize
    ensures value { result ≡ length (lines (row (state records.now) s)) }
    ensures few { result ≤ 2000 }
{
    let mut len = 0;
    for t in 1..=63 {
        len += pair_len(records, s, t);
    }
    len
}

/// How long the report is.
pub(crate) fn report_len(records: &Records) -> usize
    ensures { result ≡ length (report (state records.now)) }
{
    let mut len = 0;
    for s in 1..=63 {
        len += row_len(records, s);
    }
    len
}
