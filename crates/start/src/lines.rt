//! The needs of each line.
ghost use Rattle.std.specs.Prelude.{◌≡◌, ℕ};
ghost use Rattle.block.specs.Reading.{state};
ghost use Rattle.model.specs.Judged.{Judged};
ghost use Rattle.start.specs.Grounds.{asks, needs};

use crate::words::{each_role, is_container, is_object, is_object_or_none, is_ordinary};
use block::Records;
use flows::reaches;
use model::{Mode, Refusal, need};
use policy::{HouseRule, LevelOrder, has_role};
use text::record::Line;

/// What the needs of a line are tried on, where all lines define `all`, and those before it `earlier`.
#[derive(Drop)]
struct Grounds<'a, O, R> {
    order: &'a O,
    rule: &'a R,
    all: &'a Records,
    earlier: &'a Records,
}

// A need is a line, as in the table; keys that differ in one need are still two rows.
#[rattlefmt::skip]
impl<O: LevelOrder, R: HouseRule> Grounds<'_, O, R> {
    fn root(&self, level: u32) -> Result<(), Refusal>
        ensures { (mark : ℕ) → Judged (needs O.meaning R.answers self.now (Line.Root level mark)) result }
    {
        need(self.order.knows(level), Refusal::LineLevelUnknown)
    }

    fn gate(&self, object: u32) -> Result<(), Refusal>
        ensures { Judged (needs O.meaning R.answers self.now (Line.Gate object)) result }
    {
        let Grounds { order, all, .. } = *self;
        need(is_object(all, object), Refusal::LineUndefined)?;
        need(all.tables.level(object) == order.top(), Refusal::LineLevels)
    }

    fn account(&self, number: u32, level: u32, roles: u32, key: u32) -> Result<(), Refusal>
        ensures { (guarded : ℕ) → Judged (needs O.meaning R.answers self.now (Line.Account number level guarded roles key)) result }
    {
        let Grounds { order, all, earlier, .. } = *self;
        need(earlier.tables.account(number).is_none(), Refusal::LineUndefined)?;
        need(each_role(roles, |r| all.tables.role(r).is_some()), Refusal::LineUndefined)?;
        need(is_object_or_none(all, key), Refusal::LineUndefined)?;
        need(order.knows(level), Refusal::LineLevelUnknown)?;
        let below = |r| order.at_or_below(all.tables.role_level(r), level);
        need(each_role(roles, below), Refusal::LineLevels)?;
        need(key == 0 || all.tables.level(key) == level, Refusal::LineLevels)
    }

    fn role(&self, number: u32, level: u32, manages: u32, key: u32) -> Result<(), Refusal>
        ensures { (kind : ℕ) → Judged (needs O.meaning R.answers self.now (Line.Role number level kind manages key)) result }
    {
        let Grounds { order, all, earlier, .. } = *self;
        need(earlier.tables.role(number).is_none(), Refusal::LineUndefined)?;
        need(each_role(manages, |r| is_ordinary(all, r)), Refusal::LineUndefined)?;
        need(is_object_or_none(all, key), Refusal::LineUndefined)?;
        need(order.knows(level), Refusal::LineLevelUnknown)
    }

    fn container(&self, number: u32, level: u32, holder: u32) -> Result<(), Refusal>
        ensures { (mark : ℕ) → Judged (needs O.meaning R.answers self.now (Line.Container number level mark holder)) result }
    {
        let Grounds { order, all, earlier, .. } = *self;
        need(earlier.tables.item(number).is_none(), Refusal::LineUndefined)?;
        need(is_container(all, holder) && holder < number, Refusal::LineUndefined)?;
        need(order.knows(level), Refusal::LineLevelUnknown)?;
        need(order.at_or_below(level, all.tables.level(holder)), Refusal::LineLevels)
    }

    fn object(&self, number: u32, level: u32, holder: u32) -> Result<(), Refusal>
        ensures { Judged (needs O.meaning R.answers self.now (Line.Object number level holder)) result }
    {
        let Grounds { order, all, earlier, .. } = *self;
        need(earlier.tables.item(number).is_none(), Refusal::LineUndefined)?;
        need(is_container(all, holder), Refusal::LineUndefined)?;
        need(order.knows(level), Refusal::LineLevelUnknown)?;
        need(order.at_or_below(level, all.tables.level(holder)), Refusal::LineLevels)
    }

    fn session(
        &self,
        number: u32,
        account: u32,
        level: u32,
        program: u32,
        parent: u32,
    ) -> Result<(), Refusal>
        ensures { Judged (needs O.meaning R.answers self.now (Line.Session number account level program parent)) result }
    {
        let Grounds { order, all, earlier, .. } = *self;
        let account = all.tables.account(account);
        let above = all.tables.item(parent);
        need(earlier.tables.item(number).is_none(), Refusal::LineUndefined)?;
        need(account.is_some() && is_object_or_none(all, program), Refusal::LineUndefined)?;
        need(parent == 0 || above.is_some() && parent < number, Refusal::LineUndefined)?;
        need(order.knows(level), Refusal::LineLevelUnknown)?;
        need(order.at_or_below(level, account.unwrap_or_default().level), Refusal::LineLevels)?;
        need(parent == 0 || order.at_or_below(level, all.tables.level(parent)), Refusal::LineLevels)
    }

    fn right(&self, role: u32, item: u32, right: u32) -> Result<(), Refusal>
        ensures { Judged (needs O.meaning R.answers self.now (Line.Right role item right)) result }
    {
        let Grounds { order, all, .. } = *self;
        let tables = &all.tables;
        need(tables.role(role).is_some() && tables.item(item).is_some(), Refusal::LineUndefined)?;
        need(!Mode::from(right).is_strong() || order.at_or_below(tables.level(item), tables.role_level(role)), Refusal::LineLevels)
    }

    fn held(&self, session: u32, role: u32) -> Result<(), Refusal>
        ensures { Judged (needs O.meaning R.answers self.now (Line.Held session role)) result }
    {
        let Grounds { order, rule, all, earlier } = *self;
        let tables = &all.tables;
        let account = tables.session(session).account;
        let takes = tables.account(account).unwrap_or_default().takes;
        let life = earlier.tables.session(session).life;
        need(tables.item(session).is_some() && tables.role(role).is_some(), Refusal::LineUndefined)?;
        need(has_role(takes, role), Refusal::LineUndefined)?;
        need(order.at_or_below(tables.role_level(role), tables.level(session)), Refusal::LineLevels)?;
        need(rule.allows(account, life, role), Refusal::LineRule)
    }

    fn access(&self, session: u32, item: u32, access: u32) -> Result<(), Refusal>
        ensures { Judged (needs O.meaning R.answers self.now (Line.Access session item access)) result }
    {
        let Grounds { order, all, .. } = *self;
        let tables = &all.tables;
        need(tables.item(session).is_some() && tables.item(item).is_some(), Refusal::LineUndefined)?;
        need(!Mode::from(access).is_strong() || order.at_or_below(tables.level(item), tables.level(session)), Refusal::LineLevels)?;
        need(reaches(all, order, session, item), Refusal::LineNotReached)
    }
}

/// The needs of a line, where all lines define `all`, and those before it `earlier`.
#[rattlefmt::skip]
pub(crate) fn judge<O: LevelOrder, R: HouseRule>(
    order: &O,
    rule: &R,
    all: &Records,
    earlier: &Records,
    line: Line,
) -> Result<(), Refusal>
    ensures { Judged (asks (O.meaning order.now) (R.answers rule.now) (state all.now) (state earlier.now) line) result }
{
    let grounds = Grounds { order, rule, all, earlier };
    match line {
        Line::Root { level, .. } => grounds.root(level),
        Line::Gate { object } => grounds.gate(object),
        Line::Account { number, level, roles, key, .. } => {
            grounds.account(number, level, roles, key)
        }
        Line::Role { number, level, manages, key, .. } => grounds.role(number, level, manages, key),
        Line::Container { number, level, holder, .. } => grounds.container(number, level, holder),
        Line::Object { number, level, holder } => grounds.object(number, level, holder),
        Line::Session { number, account, level, program, parent } => {
            grounds.session(number, account, level, program, parent)
        }
        Line::Right { role, item, right } => grounds.right(role, item, right),
        Line::Held { session, role } => grounds.held(session, role),
        Line::Access { session, item, access } => grounds.access(session, item, access),
    }
}
