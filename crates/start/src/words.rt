//! The words in which a line's needs are put.
ghost use Rattle.std.specs.Prelude.{◌≡◌, ◌≢◌, ℕ, ◌<◌, true, false, T, MatchBool};
ghost use Rattle.sets.specs.Member.{bit};
ghost use Rattle.block.specs.Reading.{state};
ghost use Rattle.model.specs.Judged.{Tells};
ghost use Rattle.start.specs.Grounds.{object as object_at, container as container_at, ordinary as ordinary_at, ObjectOrNone};

use block::Records;
use policy::has_role;

/// An object is defined under the number.
pub(crate) fn is_object(all: &Records, n: u32) -> bool
    ensures { result ≡ object_at (state all.now) n }
{
    all.tables
        .item(n)
        .is_some_and(|item| item.container.is_none())
}

/// A container is defined under the number.
pub(crate) fn is_container(all: &Records, n: u32) -> bool
    ensures { result ≡ container_at (state all.now) n }
{
    all.tables.mark(n).is_some()
}

/// A key or a program is none, or an object.
pub(crate) fn is_object_or_none(all: &Records, n: u32) -> bool
    ensures { Tells result (ObjectOrNone (state all.now) n) }
{
    n == 0 || is_object(all, n)
}

/// An ordinary role is defined under the number.
pub(crate) fn is_ordinary(all: &Records, n: u32) -> bool
    ensures { result ≡ ordinary_at (state all.now) n }
{
    all.tables
        .role(n)
        .is_some_and(|role| role.manages.is_none())
}

/// Each role of the set passes the test.
pub(crate) fn each_role<F: Fn(u32) -> bool>(set: u32, test: F) -> bool
    requires { F.IsAlwaysCallable test }
    ensures { MatchBool result ((r : ℕ) → r < 32 → T (bit set r) → F.post test r true) ((r : ℕ) × (r < 32) × (T (bit set r) × F.post test r false)) }
{
    (0..32).all(|r| !has_role(set, r) || test(r))
}
