//! Who controls whom. By a program and by a key are two functions, as they are two rules: a key asks that the session lives, and its flow
//! goes the other way. Relations and tables are two parameters, as in `rules`.
ghost use Rattle.std.specs.Prelude.{◌≡◌, ℕ, ◌<◌};
ghost use Rattle.model.specs.Records.{Session};
ghost use Rattle.model.specs.Flows.{key};
ghost use Rattle.block.specs.declared.tables.Tables.{Tables as TheTables};
ghost use Rattle.block.specs.Reading.{cards_of};
ghost use Rattle.flows.specs.Spread.{Spread, program_of};
ghost use Rattle.flows.specs.Rules.{Owner, ByProgram, ByKey, Controlled};

use crate::rules::{by_flow, itself, lives, owner};
use block::{Relations, Tables};

/// The program of the session `t`, or 0.
fn program(tables: &Tables, t: usize) -> usize
    requires { t < 64 }
    ensures { result ≡ program_of tables.now t }
{
    tables.session(t as u32).program as usize
}

/// The key of the account of the session `t`, or 0.
fn account_key(tables: &Tables, t: usize) -> usize
    requires { t < 64 }
    ensures { result ≡ key (cards_of tables.now) t }
{
    let account = tables.session(t as u32).account;
    tables.account(account).map_or(0, |account| account.key) as usize
}

/// Control of `t` by own access.
fn owners(relations: &mut Relations, tables: &Tables, t: usize) -> bool
    requires { Session t }
    ensures { Spread tables.now relations.old relations.new result (λ P. (s : ℕ) → Session s → Owner s t P) }
{
    let mut grew = false;
    for s in 1..64 {
        grew |= owner(relations, tables, s, t);
    }
    grew
}

/// Control of `t` by a flow to its program.
fn by_program(relations: &mut Relations, tables: &Tables, t: usize) -> bool
    requires { Session t }
    ensures { Spread tables.now relations.old relations.new result (ByProgram (program_of tables.now) t) }
{
    let e = program(tables, t);
    if e == 0 {
        return false;
    }
    if e > 255 {
        return false;
    }
    let mut grew = false;
    for s in 1..64 {
        grew |= by_flow(relations, s, e, s, t);
    }
    grew
}

/// Control of `t` by a flow from the key of its account.
fn by_key(relations: &mut Relations, tables: &Tables, t: usize) -> bool
    requires { Session t }
    ensures { Spread tables.now relations.old relations.new result (ByKey (cards_of tables.now) t) }
{
    if !lives(tables, t) {
        return false;
    }
    let e = account_key(tables, t);
    if e == 0 {
        return false;
    }
    if e > 255 {
        return false;
    }
    let mut grew = false;
    for s in 1..64 {
        grew |= by_flow(relations, e, s, s, t);
    }
    grew
}

/// The rules that give control of `t`, but through another session.
fn controlled(relations: &mut Relations, tables: &Tables, t: usize) -> bool
    requires { Session t }
    ensures { Spread tables.now relations.old relations.new result (Controlled (cards_of tables.now) (program_of tables.now) t) }
{
    let mut grew = itself(relations, tables, t);
    grew |= owners(relations, tables, t);
    grew |= by_program(relations, tables, t);
    grew |= by_key(relations, tables, t);
    grew
}

/// The same, for every session.
pub(crate) fn controlled_all(relations: &mut Relations, tables: &Tables) -> bool
    ensures { Spread tables.now relations.old relations.new result (λ P. (t : ℕ) → Session t → Controlled (cards_of tables.now) (program_of tables.now) t P) }
{
    let mut grew = false;
    for t in 1..64 {
        grew |= controlled(relations, tables, t);
    }
    grew
}
