//! What the monitor means: its records, its requests, what each needs and does, and the laws over whole runs.
//! The definitions stand in `specs/`; the types below are the words that they and all code above share.
#![tactic(auto)]

pub mod answer;
pub mod fact;
pub mod laws;
pub mod record;
pub mod request;
pub mod span;

pub use answer::{Refusal, StartRefusal, answer_number, need, number_and_line};
pub use fact::{Fact, Mode};
pub use record::{Account, Item, Mark, Role};
pub use request::{Kind, Request, Row, Sort, Span};
