//! All that falls when an item is gone.
ghost use Rattle.std.specs.Prelude.{◌≡◌, ℕ, ◌<◌, not, ◌&&◌, ◌||◌, length, ◌==◌, slice_index_or};
ghost use Rattle.sets.specs.Member.{relates, empty_relation};
ghost use Rattle.model.specs.Records.{about};
ghost use Rattle.block.specs.Reading.{state, no_session};
ghost use Rattle.block.specs.Writing.{forgetting, dropping, untying, leaving, of_item, of_session};

use crate::records::Records;
use crate::tables::Session;
use sets::Relation;

/// Row i has no number, at any mode.
// Rows and columns are two functions: a proof knows nothing of what a closure over a `&mut` changed.
fn clear_rows(tables: &mut [Relation<256, 1>], i: usize)
    requires { i < 256 }
    ensures { (p x z : ℕ) → relates (slice_index_or tables.new p empty_relation) x z ≡ (not (x == i) && relates (slice_index_or tables.old p empty_relation) x z) }
{
    for table in tables.iter_mut() {
        table.clear_row(i);
    }
}

/// No row has the number k, at any mode.
fn clear_columns(tables: &mut [Relation<256, 1>], k: usize)
    requires { k < 64 }
    ensures { (p x z : ℕ) → relates (slice_index_or tables.new p empty_relation) x z ≡ (not (z == k) && relates (slice_index_or tables.old p empty_relation) x z) }
{
    for table in tables.iter_mut() {
        table.clear_column(k);
    }
}

/// What is left of a session when the item is gone, where the item may be the session itself.
// `itself` is no step to run, but a test of the session's number, which the caller has.
fn left(session: Session, itself: bool, item: u32, parent: u32) -> Session
    ensures { result ≡ leaving itself item parent session }
{
    Session {
        program: if itself || session.program == item {
            0
        } else {
            session.program
        },
        parent: if session.parent == item {
            parent
        } else {
            session.parent
        },
        ..session
    }
}

/// No session runs the item any more, and the item's children get its parent.
fn leave(sessions: &mut [Session], item: u32, parent: u32)
    ensures { (t : ℕ) → t < length sessions.old → slice_index_or sessions.new t no_session ≡ leaving (t == item) item parent (slice_index_or sessions.old t no_session) }
{
    for (t, session) in sessions.iter_mut().enumerate() {
        *session = left(*session, t == item as usize, item, parent);
    }
}

impl Records {
    /// All that the item had as an item falls.
    fn forget_item(&mut self, i: u32)
        requires { i < 256 }
        ensures { state self.new ≡ dropping (of_item i) (state self.old) }
    {
        let t = &mut self.tables;
        let i = i as usize;
        t.live.remove(i);
        clear_rows(&mut t.rights, i);
        clear_rows(&mut t.accesses, i);
        t.contents.forget(i);
        self.relations.flows.forget(i);
    }

    /// All that the item had as a session falls.
    fn forget_session(&mut self, i: u32)
        requires { i < 64 }
        ensures { state self.new ≡ dropping (of_session i) (state self.old) }
    {
        let i = i as usize;
        self.tables.held.clear_row(i);
        clear_columns(&mut self.tables.accesses, i);
        self.relations.control.forget(i);
    }

    /// All that the item had falls.
    fn forget_facts(&mut self, i: u32)
        requires { i < 256 }
        ensures { state self.new ≡ dropping (about i) (state self.old) }
    {
        self.forget_item(i);
        if i < 64 {
            self.forget_session(i);
        }
    }

    /// No session runs the item any more, and its children get its parent.
    fn forget_ties(&mut self, i: u32)
        requires { 0 < i }
        ensures { state self.new ≡ untying i (state self.old) }
    {
        let parent = self.tables.session(i).parent;
        leave(&mut self.tables.sessions, i, parent);
    }

    /// The item is gone: all that it had falls, no session runs it, and its children get its parent.
    pub fn forget(&mut self, i: u32)
        requires { (0 < i) × (i < 256) }
        ensures { state self.new ≡ forgetting i (state self.old) }
    {
        self.forget_facts(i);
        self.forget_ties(i);
    }
}
