//! Parts of a lent text.
ghost use Rattle.std.specs.Prelude.{MatchOption};
ghost use Rattle.text.specs.Cut.{Lacks, CutAt};

/// The bytes before the first `b`, and those behind it.
pub fn cut<'a>(s: &'a [u8], b: u8) -> Option<(&'a [u8], &'a [u8])>
    ensures { MatchOption result (Lacks b s.now) (λ p. CutAt b s.now p.0.now p.1.now) }
{
    let n = s.iter().position(|x| *x == b)?;
    Some((&s[..n], &s[n + 1..]))
}
