//! What a replay gives, and whether all that stands in one block stands in another.
ghost use Rattle.std.specs.Prelude.{◌≡◌, ℕ, ◌<◌, ◌≤◌, ◌&&◌, T, length, MatchBool, ⊤};
ghost use Rattle.model.specs.Form.{kind_of};
ghost use Rattle.model.specs.Laws.{is_giving, StandsIn};
ghost use Rattle.block.specs.Lent.{block_state};
ghost use Rattle.block.specs.Reading.{state};
ghost use Rattle.bench.specs.Standing.{too, item_too, mode_too, pair_too, RowToo};

use block::{Block, Records};
use model::{Fact, Kind, Mode, Request};
use monitor::request;
use policy::{HouseRule, LevelOrder};

/// Whether a request gives, and takes nothing back.
pub(crate) fn gives(q: &Request) -> bool
    ensures { result ≡ is_giving (kind_of q.now.k) }
{
    match Kind::try_from(q.k) {
        Ok(
            Kind::Take
            | Kind::Grant
            | Kind::Object
            | Kind::Container
            | Kind::Link
            | Kind::Open
            | Kind::Gain,
        ) => true,
        _ => false,
    }
}

/// Gives the requests one by one, and answers how many were accepted.
pub(crate) fn give<O: LevelOrder, R: HouseRule>(
    block: &mut Block,
    order: &O,
    rule: &R,
    requests: &[Request],
) -> usize
    ensures { result ≤ length requests.now }
{
    let mut accepted = 0;
    for q in requests {
        if request(block, order, rule, q).is_ok() {
            accepted += 1;
        }
    }
    accepted
}

/// The fact stands in `b`, if it does in `a`.
// Inlined, as `stands` is: a replay asks this some 800,000 times.
#[inline(always)]
fn stands_too(a: &Records, b: &Records, fact: Fact) -> bool
    ensures { result ≡ too (state a.now) (state b.now) fact }
{
    !a.stands(fact) || b.stands(fact)
}

/// The item lives in `b` at its level, if it lives in `a`.
fn item_stands(a: &Records, b: &Records, i: u32) -> bool
    ensures { result ≡ item_too (state a.now) (state b.now) i }
{
    !a.stands(Fact::Lives(i)) || b.stands(Fact::Lives(i)) && b.tables.level(i) == a.tables.level(i)
}

fn mode_stands(a: &Records, b: &Records, i: u32, j: u32, mode: Mode) -> bool
    ensures { result ≡ mode_too (state a.now) (state b.now) i j mode }
{
    stands_too(a, b, Fact::Right(i, j, mode)) && stands_too(a, b, Fact::Access(i, j, mode))
}

/// What stands between the numbers `i` and `j` in `a` stands in `b`.
fn pair_stands(a: &Records, b: &Records, i: u32, j: u32) -> bool
    ensures { result ≡ pair_too (state a.now) (state b.now) i j }
{
    mode_stands(a, b, i, j, Mode::Read)
        && mode_stands(a, b, i, j, Mode::Write)
        && mode_stands(a, b, i, j, Mode::Execute)
        && mode_stands(a, b, i, j, Mode::Own)
        && stands_too(a, b, Fact::Held(i, j))
        && stands_too(a, b, Fact::Holding(i, j))
        && stands_too(a, b, Fact::Flow(i, j))
        && stands_too(a, b, Fact::Control(i, j))
}

/// What stands in `a` between `i` and every number stands in `b`.
fn pairs_stand(a: &Records, b: &Records, i: u32) -> bool
    ensures { T result → (j : ℕ) → j < 256 → T (pair_too (state a.now) (state b.now) i j) }
{
    (0..256).all(|j| pair_stands(a, b, i, j))
}

/// What stands in `a` of `i`, and between it and every number, stands in `b`.
fn row_stands(a: &Records, b: &Records, i: u32) -> bool
    ensures { MatchBool result (RowToo (state a.now) (state b.now) i) ⊤ }
{
    item_stands(a, b, i) && pairs_stand(a, b, i)
}

/// Every fact that stands in `a` stands in `b`, and every item that lives in `a` has the same level there.
fn all_stands(a: &Records, b: &Records) -> bool
    ensures { T result → StandsIn (state a.now) (state b.now) }
{
    (0..256).all(|i| row_stands(a, b, i))
}

/// The same of two blocks; in a blank one nothing stands.
pub(crate) fn stands_in(a: &Block, b: &Block) -> bool
    ensures { T result → StandsIn (block_state a.now) (block_state b.now) }
{
    match (&a.records, &b.records) {
        (Some(a), Some(b)) => all_stands(a, b),
        (None, _) => true,
        _ => false,
    }
}
