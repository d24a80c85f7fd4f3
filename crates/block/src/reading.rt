//! What the tables say of any number.
ghost use Rattle.std.specs.Prelude.{◌≡◌};
ghost use Rattle.block.specs.Reading.{session_of, cards_of, state};
ghost use Rattle.model.specs.Records.{role_of, item_of};

use crate::records::Records;
use crate::tables::{Session, Tables};
use model::{Account, Fact, Item, Mark, Role};

impl Tables {
    /// The account of this number.
    pub fn account(&self, n: u32) -> Option<Account>
        ensures { result ≡ (cards_of self.now).accounts n }
    {
        *self.accounts.get(n as usize)?
    }

    /// The role of this number.
    pub fn role(&self, n: u32) -> Option<Role>
        ensures { result ≡ (cards_of self.now).roles n }
    {
        *self.roles.get(n as usize)?
    }

    /// What is written of the item of this number, if it was ever used.
    pub fn item(&self, n: u32) -> Option<Item>
        ensures { result ≡ (cards_of self.now).items n }
    {
        *self.items.get(n as usize)?
    }

    /// The level of the role of this number, or 0.
    pub fn role_level(&self, n: u32) -> u32
        ensures { result ≡ (role_of (cards_of self.now) n).level }
    {
        self.role(n).unwrap_or_default().level
    }

    /// The level of the item of this number, or 0.
    pub fn level(&self, n: u32) -> u32
        ensures { result ≡ (item_of (cards_of self.now) n).level }
    {
        self.item(n).unwrap_or_default().level
    }

    /// The mark of the container of this number; an object or a session has none.
    pub fn mark(&self, n: u32) -> Option<Mark>
        ensures { result ≡ (item_of (cards_of self.now) n).container }
    {
        self.item(n)?.container
    }

    /// The session of this number.
    pub fn session(&self, n: u32) -> Session
        ensures { result ≡ session_of self.now n }
    {
        self.sessions.get(n as usize).copied().unwrap_or_default()
    }
}

impl Records {
    /// Whether the fact stands.
    // Inlined, for the fact is mostly a literal: then only its case is left.
    #[inline(always)]
    pub fn stands(&self, fact: Fact) -> bool
        ensures { result ≡ (state self.now).stands fact }
    {
        let t = &self.tables;
        let r = &self.relations;
        match fact {
            Fact::Lives(i) => i < 256 && t.live.has(i as usize),
            Fact::Held(s, role) => s < 64 && role < 64 && t.held.has(s as usize, role as usize),
            Fact::Right(role, i, mode) => role < 64
                && i < 256
                && t.rights[mode as usize].has(i as usize, role as usize),
            Fact::Access(s, i, mode) => s < 64
                && i < 256
                && t.accesses[mode as usize].has(i as usize, s as usize),
            Fact::Holding(c, e) => c < 256 && e < 256 && t.contents.has(c as usize, e as usize),
            Fact::Flow(a, b) => a < 256 && b < 256 && r.flows.has(a as usize, b as usize),
            Fact::Control(s, u) => s < 64 && u < 64 && r.control.has(s as usize, u as usize),
        }
    }
}
