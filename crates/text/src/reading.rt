//! The first reading.
ghost use Rattle.std.specs.Prelude.{◌≡◌, ◌+◌, ◌<◌, length, MatchOption, MatchResult, ◌≢◌};
ghost use Rattle.text.specs.declared.record.Line.{Line};
ghost use Rattle.text.specs.Lines.{key_text, body, rank, NoLine, First, FirstUnique, level_in_range, entity_in_range, session_in_range, item_in_range, access_in_range};
ghost use Rattle.text.specs.Post.{Says, Reads, Next, Wrong, arity, entry_before, entry_follows, entry_in_range};
ghost use Rattle.text.specs.Rest.{rest};

use crate::numbers::{BEYOND, row};
use crate::part::cut;
use crate::reader::Reader;
use crate::record::{Entry, Fault, Key, Refusal};

/// The key that the bytes name.
pub(crate) fn key_of(s: &[u8]) -> Option<Key>
    ensures { MatchOption result ((k : Key) → s.now ≢ key_text k) (λ k. s.now ≡ key_text k) }
{
    match s {
        b"root" => Some(Key::Root),
        b"gate" => Some(Key::Gate),
        b"account" => Some(Key::Account),
        b"role" => Some(Key::Role),
        b"container" => Some(Key::Container),
        b"object" => Some(Key::Object),
        b"session" => Some(Key::Session),
        b"right" => Some(Key::Right),
        b"held" => Some(Key::Held),
        b"access" => Some(Key::Access),
        _ => None,
    }
}

impl Key {
    /// How many numbers a line of the key has.
    pub(crate) fn count(self) -> usize
        ensures { result ≡ arity self }
    {
        match self {
            Key::Gate => 1,
            Key::Root | Key::Held => 2,
            Key::Object | Key::Right | Key::Access => 3,
            Key::Container => 4,
            Key::Account | Key::Role | Key::Session => 5,
        }
    }
}

/// A line, without the byte 10 that ends it.
pub(crate) fn entry(line: &[u8]) -> Option<Entry>
    ensures { MatchOption result ((l : Line) → line.now ≢ body l) (λ e. Says line.now e) }
{
    let (name, list) = cut(line, b'=')?;
    let key = key_of(name)?;
    let numbers = row(list, key.count())?;
    Some(Entry { key, numbers })
}

// May `e` come after so many lines, of which `last` is the last?
fn may_follow(lines: usize, last: &Entry, e: &Entry) -> bool
    ensures { result ≡ entry_follows lines last.now e.now }
{
    match lines {
        0 => e.key == Key::Root,
        1 => e.key == Key::Gate,
        _ => e.key > Key::Gate && last < e,
    }
}

// A test for each range that the format names: with constant ranges in their place the proof of `in_range` did not close.
fn is_level(n: u64) -> bool
    ensures { result ≡ level_in_range n }
{
    n < 65536
}

fn is_entity(n: u64) -> bool
    ensures { result ≡ entity_in_range n }
{
    (64..=255).contains(&n)
}

fn is_session(n: u64) -> bool
    ensures { result ≡ session_in_range n }
{
    (1..=63).contains(&n)
}

fn is_item(n: u64) -> bool
    ensures { result ≡ item_in_range n }
{
    (1..=255).contains(&n)
}

fn is_access(n: u64) -> bool
    ensures { result ≡ access_in_range n }
{
    matches!(n, 1 | 2 | 8)
}

/// Are the numbers of a line in their ranges?
pub(crate) fn in_range(e: &Entry) -> bool
    ensures { result ≡ entry_in_range e.now }
{
    let [a, b, c, d, f] = e.numbers;
    match e.key {
        Key::Root => is_level(a) && b < 4,
        Key::Gate => is_entity(a),
        Key::Account => a < 16 && is_level(b) && c < 2 && d < BEYOND && (f == 0 || is_entity(f)),
        Key::Role => a < 32
            && is_level(b)
            && c < 2
            && d < BEYOND
            && (f == 0 || is_entity(f))
            && (c == 1 || d == 0),
        Key::Container => is_entity(a) && is_level(b) && c < 4 && is_entity(d),
        Key::Object => is_entity(a) && is_level(b) && is_entity(c),
        Key::Session => is_session(a)
            && b < 16
            && is_level(c)
            && (d == 0 || is_entity(d))
            && f < 64,
        Key::Right => a < 32 && is_item(b) && (c == 4 || is_access(c)) && (b >= 64 || c == 8),
        Key::Held => is_session(a) && b < 32,
        Key::Access => is_session(a) && is_item(b) && is_access(c) && (b >= 64 || c == 8),
    }
}

/// The next line of the text.
pub(crate) fn next_entry(reader: &mut Reader) -> Option<Entry>
    ensures { MatchOption result (NoLine (rest reader.old)) (λ e. Reads (rest reader.old) e (rest reader.new) × (reader.new.lines ≡ reader.old.lines + 1)) }
{
    entry(reader.next_line()?)
}

// The next line, if it may come after those that were read, of which `last` is the last.
fn next_sound(reader: &mut Reader, last: &Entry) -> Result<Entry, Refusal>
    ensures { MatchResult result (λ e. Next reader.old.lines last.now (rest reader.old) e (rest reader.new) × (reader.new.lines ≡ reader.old.lines + 1)) (λ r. Wrong r.fault reader.old.lines last.now (rest reader.old) × (0 < length (rest reader.old) → r.line ≡ reader.old.lines + 1)) }
{
    let lines = reader.lines();
    let line = lines.saturating_add(1);
    let e = next_entry(reader).ok_or(Fault::Form.at(line))?;
    if !may_follow(lines, last, &e) {
        return Err(Fault::Order.at(line));
    }
    if !in_range(&e) {
        return Err(Fault::Range.at(line));
    }
    Ok(e)
}

/// The longest start text.
const LIMIT: usize = 32768;

/// The first reading of a start text, line by line: how many lines it has, or the first fault.
pub fn first_reading(text: &[u8]) -> Result<usize, Refusal>
    ensures { First text.now result }
{
    if text.len() > LIMIT {
        return Err(Fault::Size.at(0));
    }
    let mut reader = Reader::new(text);
    let mut last = Entry {
        key: Key::Root,
        numbers: [0; 5],
    };
    while !reader.is_done() {
        last = next_sound(&mut reader, &last)?;
    }
    let lines = reader.lines();
    if lines < 2 {
        return Err(Fault::Order.at(lines + 1));
    }
    Ok(lines)
}

/// That each text has one outcome.
pub fn one_outcome()
    ensures { FirstUnique }
{}
