//! Numbers, as they are written.
ghost use Rattle.std.specs.Prelude.{◌≡◌, ℕ, ◌<◌, ◌≤◌, MatchOption, ◌≢◌};
ghost use Rattle.text.specs.Lines.{numeral};
ghost use Rattle.text.specs.Post.{leading_zero, Writes, NoRow, Row};

use crate::part::cut;

/// Numbers from this one on are out of every range.
pub const BEYOND: u64 = 0x1_0000_0000;

// Does a 0 stand before other bytes?
fn has_leading_zero(s: &[u8]) -> bool
    ensures { result ≡ leading_zero s.now }
{
    s.len() > 1 && s[0] == b'0'
}

/// The number that the bytes write in decimal without leading zeros, at most 2^32.
// A function, and no `TryFrom`: both types are std's.
pub fn number(s: &[u8]) -> Option<u64>
    ensures { MatchOption result ((n : ℕ) → s.now ≢ numeral n) (λ v. Writes s.now v) }
{
    if s.is_empty() {
        return None;
    }
    if has_leading_zero(s) {
        return None;
    }
    let mut n: u64 = 0;
    for b in s {
        if !b.is_ascii_digit() {
            return None;
        }
        n = (n * 10 + (*b - b'0') as u64).min(BEYOND);
    }
    Some(n)
}

/// The numbers of a list, `count` of them with commas between, each at most 2^32; 0 fills the rest.
pub fn row<const N: usize>(list: &[u8], count: usize) -> Option<[u64; N]>
    requires some { 0 < count }
    requires room { count ≤ N }
    ensures { MatchOption result (NoRow list.now count) (λ vs. Row list.now count N vs) }
{
    let mut out = [0; N];
    let mut left = list;
    for slot in &mut out[..count - 1] {
        let (field, rest) = cut(left, b',')?;
        *slot = number(field)?;
        left = rest;
    }
    out[count - 1] = number(left)?;
    Some(out)
}
