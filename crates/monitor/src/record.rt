//! The records of a list.
use model::{Refusal, Request};

/// A request, with a place for its answer.
#[derive(Clone, Copy, Debug, PartialEq, Eq)]
pub struct Record {
    pub request: Request,
    pub answer: Result<(), Refusal>,
}
