//! The words of the table of needs.
ghost use Rattle.std.specs.Prelude.{◌≡◌, ℕ, ◌≢◌};
ghost use Rattle.block.specs.Reading.{state};
ghost use Rattle.model.specs.Records.{Stands, account_of, role_of};
ghost use Rattle.model.specs.Needs.{Managed, Unlocked, Free, Elsewhere, Alone, Vouched, MayEmpty};
ghost use Rattle.model.specs.Judged.{Tells};
ghost use Rattle.requests.specs.Words.{manages as manages_by};

use block::Records;
use flows::entitled;
use model::{Fact, Mode};
use policy::{LevelOrder, has_role};

/// Session `x` holds role `a`, which is administrative and manages `role`.
fn manages(records: &Records, x: u32, role: u32, a: u32) -> bool
    ensures { result ≡ manages_by (state records.now) x role a }
{
    let admin = records.tables.role(a).unwrap_or_default();
    records.stands(Fact::Held(x, a)) && admin.manages.is_some_and(|set| has_role(set, role))
}

/// Session `x` holds an administrative role that manages `role`.
pub(crate) fn managed(records: &Records, x: u32, role: u32) -> bool
    ensures { Tells result (Managed (state records.now) x role) }
{
    (0..32).any(|a| manages(records, x, role, a))
}

/// Session `x` has read access to the key of the role, if it has one.
pub(crate) fn unlocked(records: &Records, x: u32, role: u32) -> bool
    ensures { Tells result (Unlocked (state records.now) x role) }
{
    let key = records.tables.role(role).map_or(0, |role| role.key);
    key == 0 || records.stands(Fact::Access(x, key, Mode::Read))
}

/// If the level is the top, the voucher has write access to the gate.
pub(crate) fn vouched<O: LevelOrder>(records: &Records, order: &O, v: u32, level: u32) -> bool
    ensures { Tells result (Vouched (O.meaning order.now) (state records.now) v level) }
{
    level != order.top() || records.stands(Fact::Access(v, records.tables.gate, Mode::Write))
}

/// Some account has `y` as its key.
// Roles have the same below: with both written into `free`, which calls them, its proof did not close.
fn is_account_key(records: &Records, y: u32) -> bool
    requires { y ≢ 0 }
    ensures { Tells result ((a : ℕ) × (y ≡ (account_of (state records.now).cards a).key)) }
{
    (0..16).any(|a| records.tables.account(a).unwrap_or_default().key == y)
}

/// Some role has `y` as its key.
fn is_role_key(records: &Records, y: u32) -> bool
    requires { y ≢ 0 }
    ensures { Tells result ((r : ℕ) × (y ≡ (role_of (state records.now).cards r).key)) }
{
    (0..32).any(|r| records.tables.role(r).unwrap_or_default().key == y)
}

/// `y` is neither the root nor the gate, and no key.
pub(crate) fn free(records: &Records, y: u32) -> bool
    ensures { Tells result (Free (state records.now).cards y) }
{
    y != 64
        && y != records.tables.gate
        && (y == 0 || !is_account_key(records, y) && !is_role_key(records, y))
}

/// A container other than `z` holds `y`.
pub(crate) fn lies_elsewhere(records: &Records, z: u32, y: u32) -> bool
    ensures { Tells result (Elsewhere (state records.now) z y) }
{
    (0..256).any(|c| c != z && records.stands(Fact::Holding(c, y)))
}

/// The container holds nothing.
fn is_empty(records: &Records, y: u32) -> bool
    ensures { Tells result ((e : ℕ) → ¬ Stands (state records.now) (Fact.Holding y e)) }
{
    !(0..256).any(|e| records.stands(Fact::Holding(y, e)))
}

/// No container but `z` holds `y`, and `y` holds nothing.
pub(crate) fn alone(records: &Records, z: u32, y: u32) -> bool
    ensures { Tells result (Alone (state records.now) z y) }
{
    !lies_elsewhere(records, z, y) && is_empty(records, y)
}

/// Session `x` has write access to `z`, and a role that it holds owns `y` if `z` is shared.
pub(crate) fn may_empty(records: &Records, x: u32, z: u32, y: u32) -> bool
    ensures { Tells result (MayEmpty (state records.now) x z y) }
{
    let shared = records.tables.mark(z).is_some_and(|mark| mark.shared);
    records.stands(Fact::Access(x, z, Mode::Write))
        && (!shared || entitled(records, x, y, Mode::Own))
}
