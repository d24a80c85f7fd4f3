//! What a session asks for.
ghost use Rattle.std.specs.Prelude.{◌≡◌, Some, None, MatchResult};
ghost use Rattle.model.specs.declared.answer.Refusal.TheVariants.{Form};
ghost use Rattle.model.specs.Form.{kind_of, request_of};

use crate::answer::Refusal;

/// A request: its kind, session, voucher, role, two items, level and mark.
// Plain numbers, the kind and the mark too: one that is none has a refusal of its own, so it needs a place.
#[derive(Clone, Copy, Debug, PartialEq, Eq)]
pub struct Request {
    pub k: u32,
    pub x: u32,
    pub v: u32,
    pub r: u32,
    pub y: u32,
    pub z: u32,
    pub l: u32,
    pub m: u32,
}

/// A request of its eight numbers, in their order.
impl From<[u32; 8]> for Request {
    ghost from_gives = { λ numbers q. q ≡ request_of numbers };

    fn from([k, x, v, r, y, z, l, m]: [u32; 8]) -> Request {
        Request {
            k,
            x,
            v,
            r,
            y,
            z,
            l,
            m,
        }
    }
}

/// The thirteen kinds of request.
#[derive(Clone, Copy, Debug, PartialEq, Eq)]
pub enum Kind {
    Take,
    Drop,
    Grant,
    Revoke,
    Object,
    Container,
    Link,
    Unlink,
    Delete,
    Open,
    Close,
    Gain,
    GiveUp,
}

/// The kind of a number from 1 to 13; a request of another number is malformed.
impl TryFrom<u32> for Kind {
    type Error = Refusal;

    ghost try_from_gives = { λ k r. MatchResult r (λ kind. kind_of k ≡ Some kind) (λ e. (kind_of k ≡ None) × (e ≡ Form)) };

    #[tactic(auto, unfolding(crate::specs::Form::kind_of))]
    fn try_from(k: u32) -> Result<Kind, Refusal> {
        match k {
            1 => Ok(Kind::Take),
            2 => Ok(Kind::Drop),
            3 => Ok(Kind::Grant),
            4 => Ok(Kind::Revoke),
            5 => Ok(Kind::Object),
            6 => Ok(Kind::Container),
            7 => Ok(Kind::Link),
            8 => Ok(Kind::Unlink),
            9 => Ok(Kind::Delete),
            10 => Ok(Kind::Open),
            11 => Ok(Kind::Close),
            12 => Ok(Kind::Gain),
            13 => Ok(Kind::GiveUp),
            _ => Err(Refusal::Form),
        }
    }
}

/// What a number of a request may be: nothing but 0, a number of a range, a right, or an access.
#[derive(Clone, Copy, Debug, PartialEq, Eq)]
pub enum Span {
    Unused,
    Within(u32, u32),
    Right,
    Access,
}

/// The sort of item that a kind needs: any number, a live item, a live object, a live container, or a number never used.
#[derive(Clone, Copy, Debug, PartialEq, Eq)]
pub enum Sort {
    Any,
    Live,
    Object,
    Container,
    New,
}

/// What a kind asks of the numbers of its requests.
#[derive(Clone, Copy, Debug, PartialEq, Eq)]
pub struct Row {
    pub r: Span,
    pub y: Span,
    pub z: Span,
    pub l: Span,
    pub m: Span,
    pub y_is: Sort,
    pub z_is: Sort,
}
