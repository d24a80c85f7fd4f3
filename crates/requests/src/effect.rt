//! What an accepted request does, before flows and control follow.
ghost use Rattle.std.specs.Prelude.{◌≡◌, ◌<◌, T};
ghost use Rattle.block.specs.Reading.{state};
ghost use Rattle.block.specs.Writing.{adding, writing, session_is};
ghost use Rattle.model.specs.Effects.{item as item_is, effect, apply};
ghost use Rattle.model.specs.Form.{row as row_of, ranged as is_ranged};

use block::{Records, Session};
use model::{Fact, Item, Kind, Mode, Request};

/// A new entity `y` in `z`, owned by the role.
fn create(records: &mut Records, role: u32, y: u32, z: u32, item: Item)
    requires { (role < 64) × ((y < 256) × (z < 256)) }
    ensures { state records.new ≡ adding (Fact.Right role y Mode.Own) (adding (Fact.Holding z y) (adding (Fact.Lives y) (writing (item_is y item) (state records.old)))) }
{
    records.set_item(y, item);
    records.add(Fact::Lives(y));
    records.add(Fact::Holding(z, y));
    records.add(Fact::Right(role, y, Mode::Own));
}

/// A new session `z`, owned by session `x` and the role.
fn open(records: &mut Records, role: u32, x: u32, z: u32, item: Item, session: Session)
    requires { (role < 64) × ((x < 64) × (z < 64)) }
    ensures { state records.new ≡ adding (Fact.Right role z Mode.Own) (adding (Fact.Access x z Mode.Own) (adding (Fact.Lives z) (session_is z session (writing (item_is z item) (state records.old))))) }
{
    records.set_item(z, item);
    records.set_session(z, session);
    records.add(Fact::Lives(z));
    records.add(Fact::Access(x, z, Mode::Own));
    records.add(Fact::Right(role, z, Mode::Own));
}

/// The effect of a request of the kind, whose numbers are in their ranges.
pub(crate) fn carry_out(records: &mut Records, q: &Request, kind: Kind)
    requires { T (is_ranged (row_of kind) q.now) }
    ensures { state records.new ≡ apply (effect q.now kind) (state records.old) }
{
    let item = Item {
        level: q.l,
        container: None,
    };
    match kind {
        Kind::Take => records.hold_role(q.x, q.r),
        Kind::Drop => records.remove(Fact::Held(q.x, q.r)),
        Kind::Grant => records.add(Fact::Right(q.r, q.y, Mode::from(q.m))),
        Kind::Revoke => records.remove(Fact::Right(q.r, q.y, Mode::from(q.m))),
        Kind::Object => create(records, q.r, q.y, q.z, item),
        Kind::Container => {
            let container = Item {
                container: Some(q.m.into()),
                ..item
            };
            create(records, q.r, q.y, q.z, container)
        }
        Kind::Link => records.add(Fact::Holding(q.z, q.y)),
        Kind::Unlink => records.remove(Fact::Holding(q.z, q.y)),
        Kind::Delete | Kind::Close => records.forget(q.y),
        Kind::Open => {
            let account = records.tables.session(q.x).account;
            let session = Session {
                account,
                life: 0,
                program: q.y,
                parent: q.x,
            };
            open(records, q.r, q.x, q.z, item, session)
        }
        Kind::Gain => records.add(Fact::Access(q.x, q.y, Mode::from(q.m))),
        Kind::GiveUp => records.remove(Fact::Access(q.x, q.y, Mode::from(q.m))),
    }
}
