//! What the lines of a start text define.
ghost use Rattle.std.specs.Prelude.{◌≡◌, ◌<◌, true, Some, None};
ghost use Rattle.block.specs.Reading.{state};
ghost use Rattle.block.specs.Writing.{adding, writing, session_is};
ghost use Rattle.model.specs.Effects.{item as item_is, live_item};
ghost use Rattle.model.specs.Records.{mark_of, root};
ghost use Rattle.text.specs.Lines.{in_range};
ghost use Rattle.start.specs.Setup.{again as defines_again, plus as plus_line, with as with_line};

use block::{Records, Session};
use model::{Account, Fact, Item, Mode, Role};
use text::record::Line;

/// The line defines a number that is defined already.
fn again(records: &Records, line: Line) -> bool
    ensures { result ≡ defines_again line (state records.now) }
{
    match line {
        Line::Account { number, .. } => records.tables.account(number).is_some(),
        Line::Role { number, .. } => records.tables.role(number).is_some(),
        Line::Container { number, .. }
        | Line::Object { number, .. }
        | Line::Session { number, .. } => records.tables.item(number).is_some(),
        _ => false,
    }
}

/// An object or a container, in its holder.
fn add_entity(records: &mut Records, number: u32, holder: u32, item: Item)
    requires { (number < 256) × (holder < 256) }
    ensures { state records.new ≡ adding (Fact.Holding holder number) (adding (Fact.Lives number) (writing (item_is number item) (state records.old))) }
{
    records.set_item(number, item);
    records.add(Fact::Lives(number));
    records.add(Fact::Holding(holder, number));
}

/// A session, with no roles.
fn add_session(records: &mut Records, number: u32, level: u32, session: Session)
    requires { number < 64 }
    ensures { state records.new ≡ adding (Fact.Lives number) (session_is number session (writing (item_is number (live_item None level)) (state records.old))) }
{
    records.set_item(
        number,
        Item {
            level,
            container: None,
        },
    );
    records.set_session(number, session);
    records.add(Fact::Lives(number));
}

/// The root.
fn add_root(records: &mut Records, level: u32, mark: u32)
    ensures { state records.new ≡ adding (Fact.Lives root) (writing (item_is root (live_item (Some (mark_of mark)) level)) (state records.old)) }
{
    records.set_item(
        64,
        Item {
            level,
            container: Some(mark.into()),
        },
    );
    records.add(Fact::Lives(64));
}

/// Adds what the line adds.
#[rattlefmt::skip]
fn plus(records: &mut Records, line: Line)
    requires { in_range line ≡ true }
    ensures { state records.new ≡ plus_line line (state records.old) }
{
    match line {
        Line::Root { level, mark } => add_root(records, level, mark),
        Line::Gate { object } => records.set_gate(object),
        Line::Account { number, level, guarded, roles, key } => {
            let guarded = guarded == 1;
            records.set_account(number, Account { level, guarded, takes: roles, key })
        }
        Line::Role { number, level, kind, manages, key } => {
            let manages = (kind == 1).then_some(manages);
            records.set_role(number, Role { level, manages, key })
        }
        Line::Container { number, level, mark, holder } => {
            add_entity(records, number, holder, Item { level, container: Some(mark.into()) })
        }
        Line::Object { number, level, holder } => {
            add_entity(records, number, holder, Item { level, container: None })
        }
        Line::Session { number, account, level, program, parent } => {
            add_session(records, number, level, Session { account, life: 0, program, parent })
        }
        Line::Right { role, item, right } => records.add(Fact::Right(role, item, Mode::from(right))),
        Line::Held { session, role } => records.hold_role(session, role),
        Line::Access { session, item, access } => {
            records.add(Fact::Access(session, item, Mode::from(access)))
        }
    }
}

/// Adds what the line defines; the first line of a number counts.
pub(crate) fn define(records: &mut Records, line: Line)
    requires { in_range line ≡ true }
    ensures { state records.new ≡ with_line line (state records.old) }
{
    if again(records, line) {
        return;
    }
    plus(records, line);
}
