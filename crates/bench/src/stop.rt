//! Why a run ends early.
use std::alloc::AllocFailed;
use std::io;

/// A line of the script at fault, by its number, or an error of input, output or memory.
#[derive(Drop)]
pub enum Stop {
    Script(usize),
    Io(io::Error),
}

impl From<io::Error> for Stop {
    fn from(error: io::Error) -> Stop {
        Stop::Io(error)
    }
}

impl<T: Drop> From<AllocFailed<T>> for Stop {
    fn from(refused: AllocFailed<T>) -> Stop {
        Stop::Io(refused.into())
    }
}
