//! Lines of a key and numbers behind it, such as those of requests.
ghost use Rattle.std.specs.Prelude.{◌≡◌, ℕ, ◌<◌, ◌≤◌, List, MatchOption};
ghost use Rattle.text.specs.Requests.{Narrow, Keyed, Request};

use crate::numbers::row;

// The numbers, if each is below 2^32.
fn narrowed<const N: usize>(numbers: &[u64; N]) -> Option<[u32; N]>
    ensures { MatchOption result (Narrow numbers.now → ⊥) (λ ns. (ns ≡ numbers.now) × Narrow ns) }
{
    let mut out = [0; N];
    // Not by `zip`: after an adapter of `iter_mut` a proof knows nothing of what was written.
    for (i, n) in numbers.iter().enumerate() {
        out[i] = u32::try_from(*n).ok()?;
    }
    Some(out)
}

/// The `N` numbers behind the key of a line, which has no byte 10 at its end.
pub fn numbers_of<const N: usize>(line: &[u8], key: &[u8]) -> Option<[u32; N]>
    requires some { 0 < N }
    requires few { N ≤ 8 }
    ensures { MatchOption result ((ns : List ℕ) → Keyed key.now N line.now ns → ⊥) (λ ns. Keyed key.now N line.now ns) }
{
    let list = line.strip_prefix(key)?;
    let numbers = row(list, N)?;
    narrowed(&numbers)
}

/// The eight numbers of a request's line, which has no byte 10 at its end.
pub fn request_numbers(line: &[u8]) -> Option<[u32; 8]>
    ensures { MatchOption result ((ns : List ℕ) → Request line.now ns → ⊥) (λ ns. Request line.now ns) }
{
    numbers_of(line, b"request=")
}
