//! The form of a request: unused numbers are 0, used ones in their ranges.
ghost use Rattle.std.specs.Prelude.{◌≡◌};
ghost use Rattle.model.specs.Form.{between as is_between, idle as is_idle, admits as is_admitted, suits as is_suited, knows as is_known, shaped as is_shaped, ranged as is_ranged};

use model::{Request, Row, Span};
use policy::LevelOrder;

fn between(low: u32, high: u32, n: u32) -> bool
    ensures { result ≡ is_between low high n }
{
    (low..=high).contains(&n)
}

/// An unused number is 0.
pub fn idle(span: Span, n: u32) -> bool
    ensures { result ≡ is_idle span n }
{
    match span {
        Span::Unused => n == 0,
        _ => true,
    }
}

/// A used number is in its range.
pub fn admits(span: Span, n: u32) -> bool
    ensures { result ≡ is_admitted span n }
{
    match span {
        Span::Unused => true,
        Span::Within(low, high) => between(low, high, n),
        Span::Right => matches!(n, 1 | 2 | 4 | 8),
        Span::Access => matches!(n, 1 | 2 | 8),
    }
}

/// On a session only right and access 8 exist.
pub fn suits(span: Span, y: u32, m: u32) -> bool
    ensures { result ≡ is_suited span y m }
{
    match span {
        Span::Right | Span::Access if y < 64 => m == 8,
        _ => true,
    }
}

/// A used level is known.
pub(crate) fn level_known<O: LevelOrder>(order: &O, span: Span, l: u32) -> bool
    ensures { result ≡ is_known (O.meaning order.now) span l }
{
    match span {
        Span::Within(_, _) => order.knows(l),
        _ => true,
    }
}

/// Each number that the kind does not use is 0.
pub(crate) fn shaped(row: &Row, q: &Request) -> bool
    ensures { result ≡ is_shaped row.now q.now }
{
    idle(row.r, q.r) && idle(row.y, q.y) && idle(row.z, q.z) && idle(row.l, q.l) && idle(row.m, q.m)
}

/// Each number that the kind uses is in its range.
pub(crate) fn ranged(row: &Row, q: &Request) -> bool
    ensures { result ≡ is_ranged row.now q.now }
{
    between(1, 63, q.x)
        && between(1, 63, q.v)
        && admits(row.r, q.r)
        && admits(row.y, q.y)
        && admits(row.z, q.z)
        && admits(row.l, q.l)
        && admits(row.m, q.m)
        && suits(row.m, q.y, q.m)
}
