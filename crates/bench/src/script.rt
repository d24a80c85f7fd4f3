//! The lines of a script.
ghost use Rattle.std.specs.Prelude.{◌≡◌, ◌<◌, ◌≤◌, MatchOption};
ghost use Rattle.text.specs.Inputs.{FirstLine};
ghost use Rattle.bench.specs.Scripts.{ahead};

use crate::stop::Stop;
use text::input::{first_line, split_at_empty_line};

/// What is left of a script, and the number of the line that was asked for last, from 1.
#[derive(Drop)]
pub struct Script<'a> {
    left: &'a [u8],
    line: usize,
}

impl<'a> Script<'a> {
    /// The script of these bytes, before its first line.
    pub(crate) fn new(bytes: &'a [u8]) -> Script<'a> {
        Script {
            left: bytes,
            line: 0,
        }
    }

    /// The next line, without its byte 10, which the last line may lack.
    pub(crate) fn next_line(&mut self) -> Option<&'a [u8]>
        ensures line { MatchOption result (ahead self.old ≡ 0) (λ l. FirstLine self.old.left.now l.now self.new.left.now) }
        ensures shorter { MatchOption result (ahead self.new ≤ ahead self.old) (λ _. ahead self.new < ahead self.old) }
    {
        self.line = self.line.saturating_add(1);
        let (line, rest) = first_line(self.left)?;
        self.left = rest;
        Some(line)
    }

    /// The next line, where one must stand.
    pub(crate) fn expect_line(&mut self) -> Result<&'a [u8], Stop>
        ensures { ahead self.new ≤ ahead self.old }
    {
        self.next_line().ok_or(self.fault())
    }

    /// The lines up to an empty one, which is taken off too, or up to the end.
    pub(crate) fn start_text(&mut self) -> &'a [u8]
        ensures { ahead self.new ≤ ahead self.old }
    {
        let (text, rest) = split_at_empty_line(self.left).unwrap_or((self.left, &[]));
        let read = &self.left[..self.left.len() - rest.len()];
        // No `filter` and `count`, which go byte by byte. At most one a byte, so the sum does not wrap.
        let ends = read
            .iter()
            .fold(0usize, |n, b| n.wrapping_add(usize::from(*b == b'\n')));
        self.line = self.line.saturating_add(ends);
        self.left = rest;
        text
    }

    /// The line that was asked for last is at fault.
    pub(crate) fn fault(&self) -> Stop {
        Stop::Script(self.line)
    }
}
