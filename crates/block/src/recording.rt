//! What is written down of accounts, roles, items and sessions.
//! The setters are one assignment each: one for all would take the table too, and be longer.
ghost use Rattle.std.specs.Prelude.{◌≡◌, ◌<◌};
ghost use Rattle.model.specs.Effects.{item as item_is, took};
ghost use Rattle.block.specs.Reading.{state};
ghost use Rattle.block.specs.Writing.{adding, writing, gate_is, account_is, role_is, session_is};

use crate::records::Records;
use crate::tables::Session;
use model::{Account, Fact, Item, Role};
use policy::with_role;

impl Records {
    /// The gate is the item of this number.
    pub fn set_gate(&mut self, n: u32)
        ensures { state self.new ≡ writing (gate_is n) (state self.old) }
    {
        self.tables.gate = n;
    }

    /// The account of this number is as given.
    pub fn set_account(&mut self, n: u32, account: Account)
        requires { n < 16 }
        ensures { state self.new ≡ writing (account_is n account) (state self.old) }
    {
        self.tables.accounts[n as usize] = Some(account);
    }

    /// The role of this number is as given.
    pub fn set_role(&mut self, n: u32, role: Role)
        requires { n < 32 }
        ensures { state self.new ≡ writing (role_is n role) (state self.old) }
    {
        self.tables.roles[n as usize] = Some(role);
    }

    /// What is written of the item of this number is as given.
    pub fn set_item(&mut self, n: u32, item: Item)
        requires { n < 256 }
        ensures { state self.new ≡ writing (item_is n item) (state self.old) }
    {
        self.tables.items[n as usize] = Some(item);
    }

    /// The session of this number is as given.
    pub fn set_session(&mut self, n: u32, session: Session)
        requires { n < 64 }
        ensures { state self.new ≡ session_is n session (state self.old) }
    {
        self.tables.sessions[n as usize] = session;
    }

    /// The life record of the session has the role too.
    pub fn record_role(&mut self, s: u32, role: u32)
        requires { (s < 64) × (role < 32) }
        ensures { state self.new ≡ writing (took s role) (state self.old) }
    {
        let mut session = self.tables.session(s);
        session.life = with_role(session.life, role);
        self.set_session(s, session);
    }

    /// The session holds the role, and its life record has it from now on.
    pub fn hold_role(&mut self, s: u32, role: u32)
        requires { (s < 64) × (role < 32) }
        ensures { state self.new ≡ adding (Fact.Held s role) (writing (took s role) (state self.old)) }
    {
        self.record_role(s, role);
        self.add(Fact::Held(s, role));
    }
}
