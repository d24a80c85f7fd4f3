//! All records but flows and control.
use model::{Account, Item, Role};
use sets::{Relation, Set256};

/// A session's account, life record, program and parent; 0 is no program and no parent.
#[derive(Clone, Copy, Default)]
pub struct Session {
    pub account: u32,
    pub life: u32,
    pub program: u32,
    pub parent: u32,
}

// Relations beside one another, and no struct for each session or item: rules of flows take whole rows.
/// Rights are kept by mode and item: the roles that have them. Accesses likewise: the sessions that have them.
#[derive(Drop)]
pub struct Tables {
    pub gate: u32,
    pub accounts: [Option<Account>; 16],
    pub roles: [Option<Role>; 32],
    pub items: [Option<Item>; 256],
    pub sessions: [Session; 64],
    pub live: Set256,
    pub held: Relation<64, 1>,
    pub rights: [Relation<256, 1>; 4],
    pub accesses: [Relation<256, 1>; 4],
    pub contents: Relation<256, 4>,
}
