//! The rules of flows and control, each at the numbers where it applies.
//! A function for each rule, alike as some are: one for two would take the rule as a parameter, and its contract the fact that it gives.
//! Sessions and items are plain numbers with their range in a `requires`: they come from loops, and specifications speak of numbers.
//! Relations and tables stay two parameters: one grows, the other is only read, and a struct of both would make each contract say so.
ghost use Rattle.std.specs.Prelude.{◌≡◌, ℕ, ◌<◌, MatchBool};
ghost use Rattle.model.specs.declared.fact.Fact.TheVariants.{Lives, Access, Flow, Control};
ghost use Rattle.model.specs.Records.{Session};
ghost use Rattle.model.specs.Flows.{Unguarded};
ghost use Rattle.block.specs.declared.relations.Relations.{Relations as TheRelations};
ghost use Rattle.block.specs.declared.tables.Tables.{Tables as TheTables};
ghost use Rattle.block.specs.Reading.{standing, cards_of};
ghost use Rattle.flows.specs.Spread.{Has, Follows, Spread};
ghost use Rattle.flows.specs.Rules.{Itself, Owner, Onward, Writing, Reading, Passing, ByFlow, Outward, Inward};

use block::{Relations, Tables};
use model::Mode;

/// Whether the session `s` has the access to `e`.
fn has_access(tables: &Tables, s: usize, e: usize, mode: Mode) -> bool
    requires s { s < 64 }
    requires e { e < 256 }
    ensures { (relations : TheRelations) → result ≡ standing tables.now relations (Access s e mode) }
{
    tables.accesses[mode as usize].has(e, s)
}

/// Whether the item is alive.
pub(crate) fn lives(tables: &Tables, i: usize) -> bool
    requires { i < 256 }
    ensures { (relations : TheRelations) → result ≡ standing tables.now relations (Lives i) }
{
    tables.live.has(i)
}

/// Whether a session that `s` controls has the access to `e`.
fn has_through(relations: &Relations, tables: &Tables, s: usize, e: usize, mode: Mode) -> bool
    requires s { s < 64 }
    requires e { e < 256 }
    ensures { MatchBool result ((t : ℕ) × Has tables.now relations.now (Control s t) × Has tables.now relations.now (Access t e mode)) ((t : ℕ) → Has tables.now relations.now (Control s t) → Has tables.now relations.now (Access t e mode) → ⊥) }
{
    relations
        .control
        .row(s)
        .meets(tables.accesses[mode as usize].row(e))
}

/// A live session controls itself.
pub(crate) fn itself(relations: &mut Relations, tables: &Tables, s: usize) -> bool
    requires { Session s }
    ensures { Spread tables.now relations.old relations.new result (Itself s) }
{
    if !lives(tables, s) {
        return false;
    }
    relations.control.add(s, s)
}

/// It controls each session that it has own access to.
pub(crate) fn owner(relations: &mut Relations, tables: &Tables, s: usize, t: usize) -> bool
    requires s { Session s }
    requires t { Session t }
    ensures { Spread tables.now relations.old relations.new result (Owner s t) }
{
    if !has_access(tables, s, t, Mode::Own) {
        return false;
    }
    relations.control.add(s, t)
}

/// Control that goes on: who controls `t` controls all that `t` controls.
pub(crate) fn onward_all(relations: &mut Relations) -> bool
    ensures { (tables : TheTables) → Spread tables relations.old relations.new result (λ P. (t : ℕ) → t < 64 → (s : ℕ) → s < 64 → Onward s t P) }
{
    relations.control.go_on()
}

/// What an unguarded session controls writes for it.
pub(crate) fn writing(relations: &mut Relations, tables: &Tables, s: usize, e: usize) -> bool
    requires s { Unguarded (cards_of tables.now) s }
    requires e { e < 256 }
    ensures { Spread tables.now relations.old relations.new result (Writing s e) }
{
    if !has_through(relations, tables, s, e, Mode::Write) {
        return false;
    }
    relations.flows.add(s, e)
}

/// It reads for it, too.
pub(crate) fn reading(relations: &mut Relations, tables: &Tables, s: usize, e: usize) -> bool
    requires s { Unguarded (cards_of tables.now) s }
    requires e { e < 256 }
    ensures { Spread tables.now relations.old relations.new result (Reading s e) }
{
    if !has_through(relations, tables, s, e, Mode::Read) {
        return false;
    }
    relations.flows.add(e, s)
}

/// Flows go on.
pub(crate) fn passing_all(relations: &mut Relations) -> bool
    ensures { (tables : TheTables) → Spread tables relations.old relations.new result (λ P. (b : ℕ) → b < 256 → (a : ℕ) → a < 256 → Passing a b P) }
{
    relations.flows.go_on()
}

/// A flow from `a` to `b` gives the session `s` control of `t`, where that follows.
pub(crate) fn by_flow(relations: &mut Relations, a: usize, b: usize, s: usize, t: usize) -> bool
    requires a { a < 256 }
    requires b { b < 256 }
    requires s { s < 64 }
    requires t { t < 64 }
    ensures { (tables : TheTables) → (Has tables relations.old (Flow a b) → Follows tables (Has tables relations.old) (Control s t)) → Spread tables relations.old relations.new result (ByFlow a b s t) }
{
    if !relations.flows.has(a, b) {
        return false;
    }
    relations.control.add(s, t)
}

/// An unguarded session shares the flows from what it controls.
pub(crate) fn outward(relations: &mut Relations, s: usize, t: usize) -> bool
    requires s { s < 64 }
    requires t { t < 64 }
    ensures { (tables : TheTables) → Unguarded (cards_of tables) s → Spread tables relations.old relations.new result (Outward s t) }
{
    if !relations.control.has(s, t) {
        return false;
    }
    let row = *relations.flows.row(t);
    relations.flows.join(s, &row)
}

/// And the flows to it.
pub(crate) fn inward(relations: &mut Relations, s: usize, e: usize) -> bool
    requires s { s < 64 }
    requires e { e < 256 }
    ensures { (tables : TheTables) → Unguarded (cards_of tables) s → Spread tables relations.old relations.new result (Inward s e) }
{
    let reached = relations.flows.row(e).first();
    if !relations.control.row(s).meets(&reached) {
        return false;
    }
    relations.flows.add(e, s)
}
