//! What a line of a script says.
ghost use Rattle.std.specs.Prelude.{ℕ, [], ◌∷◌, MatchOption};
ghost use Rattle.text.specs.Requests.{Keyed};
ghost use Rattle.model.specs.declared.request.Request.{Request as Asked};
ghost use Rattle.monitor.specs.declared.topic.Question.{Question as Topical};
ghost use Rattle.bench.specs.declared.command.Command.{Command as Order};
ghost use Rattle.bench.specs.Commands.{Says};

use model::Request;
use monitor::topic::Question;
use text::request::{numbers_of, request_numbers};

/// The longest buffer of a report.
const LONGEST_BUFFER: u32 = 1_048_576;

/// A call to make: a start from the text behind it, a request, a list of so many requests behind it, a question, a report into
/// a buffer of this length, or a replay of what was given.
#[derive(Clone, Copy)]
pub enum Command {
    Start,
    Request(Request),
    List(u32),
    Question(Question),
    Report(u32),
    Replay,
}

/// The request that a line says.
pub(crate) fn request_of(line: &[u8]) -> Option<Request>
    ensures { MatchOption result ((q : Asked) → Says line.now (Command.Request q) → ⊥) (λ q. Says line.now (Command.Request q)) }
{
    Some(Request::from(request_numbers(line)?))
}

fn question_of(line: &[u8]) -> Option<Question>
    ensures { MatchOption result ((q : Topical) → Says line.now (Command.Question q) → ⊥) (λ q. Says line.now (Command.Question q)) }
{
    Some(Question::from(numbers_of::<4>(line, b"question=")?))
}

fn count_of(line: &[u8], key: &[u8]) -> Option<u32>
    ensures { MatchOption result ((n : ℕ) → Keyed key.now 1 line.now (n ∷ []) → ⊥) (λ n. Keyed key.now 1 line.now (n ∷ [])) }
{
    let [n] = numbers_of::<1>(line, key)?;
    Some(n)
}

fn buffer_of(line: &[u8]) -> Option<u32>
    ensures { MatchOption result ((n : ℕ) → Says line.now (Command.Report n) → ⊥) (λ n. Says line.now (Command.Report n)) }
{
    let n = count_of(line, b"report=")?;
    if n > LONGEST_BUFFER {
        return None;
    }
    Some(n)
}

impl Command {
    /// The command that a line, without its byte 10, says.
    pub(crate) fn of(line: &[u8]) -> Option<Command>
        ensures { MatchOption result ((c : Order) → Says line.now c → ⊥) (λ c. Says line.now c) }
    {
        match line {
            b"start" => return Some(Command::Start),
            b"replay" => return Some(Command::Replay),
            _ => {}
        }
        if let Some(q) = request_of(line) {
            return Some(Command::Request(q));
        }
        if let Some(n) = count_of(line, b"list=") {
            return Some(Command::List(n));
        }
        if let Some(q) = question_of(line) {
            return Some(Command::Question(q));
        }
        if let Some(n) = buffer_of(line) {
            return Some(Command::Report(n));
        }
        None
    }
}
