//! Whether a request is accepted: its needs, tried in their order.
ghost use Rattle.std.specs.Prelude.{◌≡◌};
ghost use Rattle.block.specs.Reading.{state};
ghost use Rattle.model.specs.Judged.{Judged};
ghost use Rattle.requests.specs.Checked.{opening as opening_of, further as further_of, Checked};

use crate::form::{level_known, ranged, shaped};
use crate::items::{fresh, of_sort};
use crate::rows::row;
use crate::words::{alone, free, lies_elsewhere, managed, may_empty, unlocked, vouched};
use block::Records;
use flows::{entitled, reaches};
use model::{Fact, Kind, Mode, Refusal, Request, need};
use policy::{HouseRule, LevelOrder, has_role};

/// A request, and what its needs are tried on: the records, the level order and the house rule.
#[derive(Drop)]
struct Asking<'a, O, R> {
    records: &'a Records,
    order: &'a O,
    rule: &'a R,
    q: &'a Request,
}

// A need is a line, as in the table; kinds that differ in one need are still two rows.
#[rattlefmt::skip]
impl<O: LevelOrder, R: HouseRule> Asking<'_, O, R> {
    /// The needs that every kind begins with: its form, its two sessions and its items.
    fn opening(&self, kind: Kind) -> Result<(), Refusal>
        ensures { Judged (opening_of O.meaning R.answers self.now kind) result }
    {
        let Asking { records, order, q, .. } = *self;
        let row = row(kind);
        need(shaped(&row, q), Refusal::Form)?;
        need(ranged(&row, q), Refusal::Range)?;
        need(level_known(order, row.l, q.l), Refusal::LevelUnknown)?;
        need(records.stands(Fact::Lives(q.x)) && records.stands(Fact::Lives(q.v)), Refusal::NoSession)?;
        need(of_sort(records, row.y_is, q.y) && of_sort(records, row.z_is, q.z), Refusal::WrongItem)?;
        need(fresh(records, row.y_is, q.y) && fresh(records, row.z_is, q.z), Refusal::NumberUsed)
    }

    fn take(&self) -> Result<(), Refusal>
        ensures { Judged (further_of O.meaning R.answers self.now Kind.Take) result }
    {
        let Asking { records, order, rule, q } = *self;
        let session = records.tables.session(q.x);
        let role = records.tables.role_level(q.r);
        need(has_role(records.tables.account(session.account).unwrap_or_default().takes, q.r), Refusal::RoleDenied)?;
        need(unlocked(records, q.x, q.r), Refusal::KeyLocked)?;
        need(order.at_or_below(role, records.tables.level(q.x)), Refusal::Levels)?;
        need(vouched(records, order, q.v, role), Refusal::NoVoucher)?;
        need(rule.allows(session.account, session.life, q.r), Refusal::RuleDenies)
    }

    fn drop_role(&self) -> Result<(), Refusal>
        ensures { Judged (further_of O.meaning R.answers self.now Kind.Drop) result }
    {
        let Asking { records, order, q, .. } = *self;
        need(records.stands(Fact::Held(q.x, q.r)), Refusal::RoleDenied)?;
        need(unlocked(records, q.x, q.r), Refusal::KeyLocked)?;
        need(vouched(records, order, q.v, records.tables.role_level(q.r)), Refusal::NoVoucher)
    }

    fn grant(&self) -> Result<(), Refusal>
        ensures { Judged (further_of O.meaning R.answers self.now Kind.Grant) result }
    {
        let Asking { records, order, q, .. } = *self;
        let role = records.tables.role_level(q.r);
        let item = records.tables.level(q.y);
        need(managed(records, q.x, q.r), Refusal::RoleDenied)?;
        need(records.stands(Fact::Access(q.x, q.y, Mode::Own)), Refusal::AccessMissing)?;
        need(order.at_or_below(role, records.tables.level(q.x)), Refusal::Levels)?;
        need(!Mode::from(q.m).is_strong() || order.at_or_below(item, role), Refusal::Levels)?;
        need(vouched(records, order, q.v, item), Refusal::NoVoucher)
    }

    fn revoke(&self) -> Result<(), Refusal>
        ensures { Judged (further_of O.meaning R.answers self.now Kind.Revoke) result }
    {
        let Asking { records, order, q, .. } = *self;
        let role = records.tables.role_level(q.r);
        need(managed(records, q.x, q.r), Refusal::RoleDenied)?;
        need(records.stands(Fact::Access(q.x, q.y, Mode::Own)), Refusal::AccessMissing)?;
        need(records.stands(Fact::Right(q.r, q.y, Mode::from(q.m))), Refusal::AccessMissing)?;
        need(order.at_or_below(role, records.tables.level(q.x)), Refusal::Levels)?;
        need(vouched(records, order, q.v, records.tables.level(q.y)), Refusal::NoVoucher)
    }

    /// An object and a container need the same.
    fn create(&self) -> Result<(), Refusal>
        ensures object { Judged (further_of O.meaning R.answers self.now Kind.Object) result }
        ensures container { Judged (further_of O.meaning R.answers self.now Kind.Container) result }
    {
        let Asking { records, order, q, .. } = *self;
        let role = records.tables.role_level(q.r);
        let container = records.tables.level(q.z);
        need(managed(records, q.x, q.r), Refusal::RoleDenied)?;
        need(records.stands(Fact::Access(q.x, q.z, Mode::Write)), Refusal::AccessMissing)?;
        need(order.at_or_below(q.l, role), Refusal::Levels)?;
        need(order.at_or_below(role, records.tables.level(q.x)), Refusal::Levels)?;
        need(order.at_or_below(q.l, container), Refusal::Levels)?;
        need(vouched(records, order, q.v, container), Refusal::NoVoucher)
    }

    fn link(&self) -> Result<(), Refusal>
        ensures { Judged (further_of O.meaning R.answers self.now Kind.Link) result }
    {
        let Asking { records, order, q, .. } = *self;
        let container = records.tables.level(q.z);
        need(free(records, q.y), Refusal::Protected)?;
        need(records.stands(Fact::Access(q.x, q.z, Mode::Write)), Refusal::AccessMissing)?;
        need(order.at_or_below(records.tables.level(q.y), container), Refusal::Levels)?;
        need(vouched(records, order, q.v, container), Refusal::NoVoucher)
    }

    fn unlink(&self) -> Result<(), Refusal>
        ensures { Judged (further_of O.meaning R.answers self.now Kind.Unlink) result }
    {
        let Asking { records, order, q, .. } = *self;
        need(free(records, q.y), Refusal::Protected)?;
        need(records.stands(Fact::Holding(q.z, q.y)), Refusal::NotInContainer)?;
        need(lies_elsewhere(records, q.z, q.y), Refusal::OtherHoldings)?;
        need(may_empty(records, q.x, q.z, q.y), Refusal::AccessMissing)?;
        need(vouched(records, order, q.v, records.tables.level(q.z)), Refusal::NoVoucher)
    }

    fn delete(&self) -> Result<(), Refusal>
        ensures { Judged (further_of O.meaning R.answers self.now Kind.Delete) result }
    {
        let Asking { records, order, q, .. } = *self;
        need(free(records, q.y), Refusal::Protected)?;
        need(records.stands(Fact::Holding(q.z, q.y)), Refusal::NotInContainer)?;
        need(alone(records, q.z, q.y), Refusal::OtherHoldings)?;
        need(may_empty(records, q.x, q.z, q.y), Refusal::AccessMissing)?;
        need(vouched(records, order, q.v, records.tables.level(q.z)), Refusal::NoVoucher)
    }

    fn open(&self) -> Result<(), Refusal>
        ensures { Judged (further_of O.meaning R.answers self.now Kind.Open) result }
    {
        let Asking { records, order, q, .. } = *self;
        let role = records.tables.role_level(q.r);
        need(managed(records, q.x, q.r), Refusal::RoleDenied)?;
        need(entitled(records, q.x, q.y, Mode::Execute), Refusal::AccessMissing)?;
        need(reaches(records, order, q.x, q.y), Refusal::NotReached)?;
        need(order.at_or_below(q.l, role), Refusal::Levels)?;
        need(order.at_or_below(role, records.tables.level(q.x)), Refusal::Levels)?;
        need(vouched(records, order, q.v, q.l), Refusal::NoVoucher)
    }

    fn close(&self) -> Result<(), Refusal>
        ensures { Judged (further_of O.meaning R.answers self.now Kind.Close) result }
    {
        let Asking { records, order, q, .. } = *self;
        let session = records.tables.level(q.y);
        need(records.stands(Fact::Access(q.x, q.y, Mode::Own)), Refusal::AccessMissing)?;
        need(order.at_or_below(session, records.tables.level(q.x)), Refusal::Levels)?;
        need(vouched(records, order, q.v, session), Refusal::NoVoucher)
    }

    fn gain(&self) -> Result<(), Refusal>
        ensures { Judged (further_of O.meaning R.answers self.now Kind.Gain) result }
    {
        let Asking { records, order, q, .. } = *self;
        let mode = Mode::from(q.m);
        need(entitled(records, q.x, q.y, mode), Refusal::AccessMissing)?;
        need(reaches(records, order, q.x, q.y), Refusal::NotReached)?;
        match mode {
            Mode::Read => Ok(()),
            _ => need(vouched(records, order, q.v, records.tables.level(q.y)), Refusal::NoVoucher),
        }
    }

    fn give_up(&self) -> Result<(), Refusal>
        ensures { Judged (further_of O.meaning R.answers self.now Kind.GiveUp) result }
    {
        let Asking { records, q, .. } = *self;
        need(records.stands(Fact::Access(q.x, q.y, Mode::from(q.m))), Refusal::AccessMissing)
    }

    /// The needs of the kind, behind those that every kind begins with.
    fn further(&self, kind: Kind) -> Result<(), Refusal>
        ensures { Judged (further_of O.meaning R.answers self.now kind) result }
    {
        match kind {
            Kind::Take => self.take(),
            Kind::Drop => self.drop_role(),
            Kind::Grant => self.grant(),
            Kind::Revoke => self.revoke(),
            Kind::Object | Kind::Container => self.create(),
            Kind::Link => self.link(),
            Kind::Unlink => self.unlink(),
            Kind::Delete => self.delete(),
            Kind::Open => self.open(),
            Kind::Close => self.close(),
            Kind::Gain => self.gain(),
            Kind::GiveUp => self.give_up(),
        }
    }
}

/// The kind of a request whose needs are all met, or else the refusal of the first that fails.
pub(crate) fn check<O: LevelOrder, R: HouseRule>(
    records: &Records,
    order: &O,
    rule: &R,
    q: &Request,
) -> Result<Kind, Refusal>
    ensures { Checked (O.meaning order.now) (R.answers rule.now) (state records.now) q.now result }
{
    let kind = Kind::try_from(q.k)?;
    let asking = Asking {
        records,
        order,
        rule,
        q,
    };
    asking.opening(kind)?;
    asking.further(kind)?;
    Ok(kind)
}
