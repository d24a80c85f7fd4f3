//! The lines of a lent text, one by one.
ghost use Rattle.std.specs.Prelude.{◌≡◌, ◌+◌, length, IfSome, MatchOption, ◌==◌};
ghost use Rattle.text.specs.Cut.{Lacks, CutAt};
ghost use Rattle.text.specs.Rest.{rest};

use super::Reader;
use crate::part::cut;

impl<'a> Reader<'a> {
    /// A reading that is to begin.
    pub(crate) fn new(text: &'a [u8]) -> Reader<'a>
        ensures rest { rest result ≡ text.now }
        ensures none { result.lines ≡ 0 }
    {
        Reader {
            left: text,
            lines: 0,
        }
    }

    /// The next line, without the byte 10 that ends it.
    pub(crate) fn next_line(&mut self) -> Option<&'a [u8]>
        ensures { MatchOption result (Lacks 10 (rest self.old)) (λ p. CutAt 10 (rest self.old) p.now (rest self.new) × (self.new.lines ≡ self.old.lines + 1)) }
    {
        let (line, left) = cut(self.left, b'\n')?;
        self.left = left;
        self.lines += 1;
        Some(line)
    }

    /// Is nothing left?
    pub(crate) fn is_done(&self) -> bool
        ensures { result ≡ (length (rest self.now) == 0) }
    {
        self.left.is_empty()
    }

    /// How many lines were read.
    pub fn lines(&self) -> usize
        ensures { result ≡ self.now.lines }
    {
        self.lines
    }
}
