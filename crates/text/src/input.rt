//! The lines of an input, of which the last may lack its byte 10.
ghost use Rattle.std.specs.Prelude.{◌≡◌, ◌<◌, length, IfSome, MatchOption};
ghost use Rattle.text.specs.Inputs.{FirstLine, EmptyAt, NoneBefore, EmptyCut};

use crate::part::cut;

/// The first line, without its byte 10, and what is behind it.
pub fn first_line<'a>(text: &'a [u8]) -> Option<(&'a [u8], &'a [u8])>
    ensures line { MatchOption result (length text.now ≡ 0) (λ p. FirstLine text.now p.0.now p.1.now) }
    ensures shorter { IfSome result (λ p. length p.1.now < length text.now) }
{
    if text.is_empty() {
        return None;
    }
    match cut(text, b'\n') {
        Some(parts) => Some(parts),
        None => Some((text, &[])),
    }
}

// The place of the first empty line.
fn empty_line(text: &[u8]) -> Option<usize>
    ensures { MatchOption result (NoneBefore text.now (length text.now)) (λ n. (n < length text.now) × EmptyAt text.now n × NoneBefore text.now n) }
{
    for (at, b) in text.iter().enumerate() {
        if *b == b'\n' && (at == 0 || text[at - 1] == b'\n') {
            return Some(at);
        }
    }
    None
}

/// The lines before the first empty line, and what is behind that line.
pub fn split_at_empty_line<'a>(text: &'a [u8]) -> Option<(&'a [u8], &'a [u8])>
    ensures { MatchOption result (NoneBefore text.now (length text.now)) (λ p. EmptyCut text.now p.0.now p.1.now) }
{
    let at = empty_line(text)?;
    Some((&text[..at], &text[at + 1..]))
}
