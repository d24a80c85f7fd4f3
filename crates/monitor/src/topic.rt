//! What a question asks.
ghost use Rattle.std.specs.Prelude.{◌≡◌, Some, None, MatchResult};
ghost use Rattle.model.specs.declared.answer.Refusal.TheVariants.{Form};
ghost use Rattle.monitor.specs.Questions.{topic_numbered, question_of};

use model::{Refusal, Span};

/// A question: its number, two numbers, and a right or an access.
// Plain numbers: one that is no question, right or access has a refusal of its own, so it needs a place.
#[derive(Clone, Copy, Debug, PartialEq, Eq)]
pub struct Question {
    pub q: u32,
    pub a: u32,
    pub b: u32,
    pub m: u32,
}

/// A question of its four numbers, in their order.
impl From<[u32; 4]> for Question {
    ghost from_gives = { λ numbers q. q ≡ question_of numbers };

    fn from([q, a, b, m]: [u32; 4]) -> Question {
        Question { q, a, b, m }
    }
}

/// What can be asked: a role's right, a held role, an access, a flow, control, or reach.
#[derive(Clone, Copy, Debug, PartialEq, Eq)]
pub enum Topic {
    Right,
    Held,
    Access,
    Flow,
    Control,
    Reach,
}

/// The topic of a number from 1 to 6; a question of another number is malformed.
impl TryFrom<u32> for Topic {
    type Error = Refusal;

    ghost try_from_gives = { λ q r. MatchResult r (λ topic. topic_numbered q ≡ Some topic) (λ e. (topic_numbered q ≡ None) × (e ≡ Form)) };

    #[tactic(auto, unfolding(crate::specs::Questions::topic_numbered))]
    fn try_from(q: u32) -> Result<Topic, Refusal> {
        match q {
            1 => Ok(Topic::Right),
            2 => Ok(Topic::Held),
            3 => Ok(Topic::Access),
            4 => Ok(Topic::Flow),
            5 => Ok(Topic::Control),
            6 => Ok(Topic::Reach),
            _ => Err(Refusal::Form),
        }
    }
}

/// What a question asks of its numbers.
#[derive(Clone, Copy, Debug, PartialEq, Eq)]
pub struct Spans {
    pub a: Span,
    pub b: Span,
    pub m: Span,
}
