//! The flows of unguarded sessions through the sessions that they control.
ghost use Rattle.std.specs.Prelude.{◌≡◌, ℕ, ◌<◌, not};
ghost use Rattle.model.specs.Records.{Session, account_of};
ghost use Rattle.model.specs.Flows.{Unguarded};
ghost use Rattle.block.specs.declared.tables.Tables.{Tables as TheTables};
ghost use Rattle.block.specs.Reading.{cards_of};
ghost use Rattle.flows.specs.Spread.{Spread};
ghost use Rattle.flows.specs.Rules.{Outward, Touch, Acts};

use crate::rules::{inward, outward, reading, writing};
use block::{Relations, Tables};

/// Whether the account of the session `s` is unguarded.
fn unguarded(tables: &Tables, s: usize) -> bool
    requires { s < 64 }
    ensures { result ≡ not (account_of (cards_of tables.now) ((cards_of tables.now).account s)).guarded }
{
    let account = tables.account(tables.session(s as u32).account);
    !account.is_some_and(|account| account.guarded)
}

/// The flows from the sessions that `s` controls.
fn outward_all(relations: &mut Relations, s: usize) -> bool
    requires { s < 64 }
    ensures { (tables : TheTables) → Unguarded (cards_of tables) s → Spread tables relations.old relations.new result (λ P. (t : ℕ) → t < 64 → Outward s t P) }
{
    let mut grew = false;
    for t in 0..64 {
        grew |= outward(relations, s, t);
    }
    grew
}

/// The rules on an unguarded session and an item.
fn touch(relations: &mut Relations, tables: &Tables, s: usize, e: usize) -> bool
    requires s { Unguarded (cards_of tables.now) s }
    requires e { e < 256 }
    ensures { Spread tables.now relations.old relations.new result (Touch s e) }
{
    let mut grew = writing(relations, tables, s, e);
    grew |= reading(relations, tables, s, e);
    grew |= inward(relations, s, e);
    grew
}

/// The same, for every item.
fn touch_all(relations: &mut Relations, tables: &Tables, s: usize) -> bool
    requires { Unguarded (cards_of tables.now) s }
    ensures { Spread tables.now relations.old relations.new result (λ P. (e : ℕ) → e < 256 → Touch s e P) }
{
    let mut grew = false;
    for e in 0..256 {
        grew |= touch(relations, tables, s, e);
    }
    grew
}

/// The flows of the session `s` through those that it controls.
fn acts(relations: &mut Relations, tables: &Tables, s: usize) -> bool
    requires { Session s }
    ensures { Spread tables.now relations.old relations.new result (λ P. Unguarded (cards_of tables.now) s → Acts s P) }
{
    if relations.control.row(s).is_empty() {
        return false;
    }
    if !unguarded(tables, s) {
        return false;
    }
    let mut grew = outward_all(relations, s);
    grew |= touch_all(relations, tables, s);
    grew
}

/// The same, for every session.
pub(crate) fn acts_all(relations: &mut Relations, tables: &Tables) -> bool
    ensures { Spread tables.now relations.old relations.new result (λ P. (s : ℕ) → Session s → Unguarded (cards_of tables.now) s → Acts s P) }
{
    let mut grew = false;
    for s in 1..64 {
        grew |= acts(relations, tables, s);
    }
    grew
}
