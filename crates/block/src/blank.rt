//! A block before any start, and records in which nothing is written.
ghost use Rattle.std.specs.Prelude.{◌≡◌, ℕ, false, slice_index_or};
ghost use Rattle.sets.specs.Member.{in_set, relates, empty_relation};
ghost use Rattle.block.specs.Reading.{state, cards_of, session_of, no_session};
ghost use Rattle.block.specs.Writing.{empty};

use crate::block::Block;
use crate::records::Records;
use crate::relations::Relations;
use crate::tables::{Session, Tables};
use sets::{Relation, Set};

// A literal: with `Session::default()` in its place LLVM no longer makes one write of all the zeros of the tables.
const NO_SESSION: Session = Session {
    account: 0,
    life: 0,
    program: 0,
    parent: 0,
};

impl Tables {
    /// Tables in which nothing is written.
    fn new() -> Tables
        ensures cards { cards_of result ≡ empty.cards }
        ensures sessions { (s : ℕ) → session_of result s ≡ no_session }
        ensures live { (k : ℕ) → in_set result.live k ≡ false }
        ensures held { (x z : ℕ) → relates result.held x z ≡ false }
        ensures rights { (p x z : ℕ) → relates (slice_index_or result.rights p empty_relation) x z ≡ false }
        ensures accesses { (p x z : ℕ) → relates (slice_index_or result.accesses p empty_relation) x z ≡ false }
        ensures contents { (x z : ℕ) → relates result.contents x z ≡ false }
    {
        Tables {
            gate: 0,
            accounts: [None; 16],
            roles: [None; 32],
            items: [None; 256],
            sessions: [NO_SESSION; 64],
            live: Set::new(),
            held: Relation::new(),
            rights: [Relation::new(); 4],
            accesses: [Relation::new(); 4],
            contents: Relation::new(),
        }
    }
}

impl Relations {
    /// No flow and no control.
    fn new() -> Relations
        ensures flows { (x z : ℕ) → relates result.flows x z ≡ false }
        ensures control { (x z : ℕ) → relates result.control x z ≡ false }
    {
        Relations {
            flows: Relation::new(),
            control: Relation::new(),
        }
    }
}

impl Records {
    /// Blank records: nothing is defined, and nothing stands.
    pub fn new() -> Records
        ensures { state result ≡ empty }
    {
        Records {
            tables: Tables::new(),
            relations: Relations::new(),
        }
    }
}

impl Block {
    /// A block before any start.
    pub fn new() -> Block
        ensures { result.records ≡ None }
    {
        Block { records: None }
    }
}
