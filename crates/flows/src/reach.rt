//! What a session reaches: every live session, and what lies within the root through containers that pass.
ghost use Rattle.std.specs.Prelude.{◌≡◌, ℕ, ◌<◌, ◌↔◌, Decides, ◌==◌};
ghost use Rattle.sets.specs.Member.{in_set};
ghost use Rattle.model.specs.declared.fact.Fact.TheVariants.{Lives};
ghost use Rattle.model.specs.Records.{Session, Stands, root};
ghost use Rattle.model.specs.Needs.{Chain, Reaches};
ghost use Rattle.block.specs.Reading.{state};
ghost use Rattle.flows.specs.Within.{In, Within, Opening, Opened};

use crate::rights::passing;
use block::Records;
use model::Fact;
use policy::LevelOrder;
use sets::Set256;

/// The container in which all others lie.
const ROOT: usize = 64;

/// The set of the root alone.
fn at_root() -> Set256
    ensures { (k : ℕ) → in_set result k ≡ (k == root) }
{
    let mut seen = Set256::new();
    let _ = seen.insert(ROOT);
    seen
}

/// Goes into the container `c`, if it is seen and passes.
// Records, `passing` and `seen` stay three parameters: only `seen` grows, and a struct would make each contract say so.
fn enter(records: &Records, passing: &Set256, seen: &mut Set256, c: usize) -> bool
    requires { c < 256 }
    ensures { Opening (state records.now) passing.now seen.old seen.new result (Opened (state records.now) passing.now c) }
{
    if !passing.has(c) {
        return false;
    }
    if !seen.has(c) {
        return false;
    }
    seen.merge(records.tables.contents.row(c))
}

/// The same, for every container.
fn enter_all(records: &Records, passing: &Set256, seen: &mut Set256) -> bool
    ensures { Opening (state records.now) passing.now seen.old seen.new result (λ x. (c : ℕ) → c < 256 → Opened (state records.now) passing.now c x) }
{
    let mut grew = false;
    for c in 0..256 {
        grew |= enter(records, passing, seen, c);
    }
    grew
}

/// The items that holdings lead to from the root, through containers of `passing`.
fn within(records: &Records, passing: &Set256) -> Set256
    ensures { (y : ℕ) → In result y ↔ Within (state records.now) (In passing.now) (λ c. c ≡ root) y }
{
    let mut seen = at_root();
    while enter_all(records, passing, &mut seen) {}
    seen
}

/// The ends of the chains of holdings that pass for `x`.
fn chains<O: LevelOrder>(records: &Records, order: &O, x: u32) -> Set256
    ensures { (y : ℕ) → y < 256 → Decides (in_set result y) (Chain (O.meaning order.now) (state records.now) x y) }
{
    let containers = passing(records, order, x);
    within(records, &containers)
}

/// Whether `y` is a live session.
fn is_live_session(records: &Records, y: u32) -> bool
    ensures { Decides result (Session y × Stands (state records.now) (Lives y)) }
{
    y >= 1 && y <= 63 && records.stands(Fact::Lives(y))
}

/// Whether the session `x` reaches `y`.
pub fn reaches<O: LevelOrder>(records: &Records, order: &O, x: u32, y: u32) -> bool
    ensures { Decides result (Reaches (O.meaning order.now) (state records.now) x y) }
{
    if y > 255 {
        return false;
    }
    if is_live_session(records, y) {
        return true;
    }
    chains(records, order, x).has(y as usize)
}
