//! What the program `pedal` does with its input, as a function from bytes to bytes: the start text, which ends at an empty line or
//! the end of input, then request lines; out come the answer to each, and the report. A refused start gives only its number and
//! line. Ladder; separation without pairs.
#![tactic(auto)]

mod session;

pub use session::run;
