//! A walk over the lines of an accepted text.
ghost use Rattle.std.specs.Prelude.{◌≡◌, ℕ, ◌^◌, ◌<◌, List, [], length, slice_index, ⊤};
ghost use Rattle.std.specs.Iterator.{at_most};
ghost use Rattle.text.specs.declared.record.Line.{Line};
ghost use Rattle.text.specs.Lines.{Accepted};
ghost use Rattle.text.specs.Post.{line_of};
ghost use Rattle.text.specs.Rest.{rest};
ghost use Rattle.text.specs.Walks.{Walk, WalksOn};

use crate::reader::Reader;
use crate::reading::{in_range, next_entry};
use crate::record::{Entry, Key, Line};

// The line that an entry holds. No `TryFrom`: that all five numbers are small is known of an entry that was read, not of any in range.
fn line_of(e: &Entry) -> Line
    requires { (j : ℕ) → slice_index e.now.numbers j < 2 ^ 32 }
    ensures { result ≡ line_of e.now.key e.now.numbers }
{
    let a = e.numbers[0] as u32;
    let b = e.numbers[1] as u32;
    let c = e.numbers[2] as u32;
    let d = e.numbers[3] as u32;
    let f = e.numbers[4] as u32;
    match e.key {
        Key::Root => Line::Root { level: a, mark: b },
        Key::Gate => Line::Gate { object: a },
        Key::Account => Line::Account {
            number: a,
            level: b,
            guarded: c,
            roles: d,
            key: f,
        },
        Key::Role => Line::Role {
            number: a,
            level: b,
            kind: c,
            manages: d,
            key: f,
        },
        Key::Container => Line::Container {
            number: a,
            level: b,
            mark: c,
            holder: d,
        },
        Key::Object => Line::Object {
            number: a,
            level: b,
            holder: c,
        },
        Key::Session => Line::Session {
            number: a,
            account: b,
            level: c,
            program: d,
            parent: f,
        },
        Key::Right => Line::Right {
            role: a,
            item: b,
            right: c,
        },
        Key::Held => Line::Held {
            session: a,
            role: b,
        },
        Key::Access => Line::Access {
            session: a,
            item: b,
            access: c,
        },
    }
}

/// The lines of a text, of which none is read yet.
pub fn lines<'a>(text: &'a [u8]) -> Reader<'a>
    ensures { (ls : List Line) → Accepted text.now ls → Walk ls result [] }
{
    Reader::new(text)
}

/// The next line of the text, and its number, from 1.
impl<'a> Iterator for Reader<'a> {
    type Item = (usize, Line);

    ghost can_next = { λ _. ⊤ };

    ghost next_gives = { WalksOn };

    ghost remaining = { λ r. at_most (length (rest r)) };

    fn next(&mut self) -> Option<(usize, Line)> {
        let e = next_entry(self)?;
        if !in_range(&e) {
            return None;
        }
        Some((self.lines(), line_of(&e)))
    }
}
