//! What can stand at one time and fall later.
ghost use Rattle.std.specs.Prelude.{◌≡◌};
ghost use Rattle.model.specs.Form.{mode_of};
ghost use Rattle.model.specs.Needs.{strong};

/// What a right or an access is for. An access is never for executing.
#[derive(Clone, Copy, Debug, PartialEq, Eq)]
pub enum Mode {
    Read,
    Write,
    Execute,
    Own,
}

/// The mode of a right or an access: 1 to read, 2 to write, 4 to execute, and 8, or any other number, to own.
impl From<u32> for Mode {
    ghost from_gives = { λ m mode. mode ≡ mode_of m };

    fn from(m: u32) -> Mode {
        match m {
            1 => Mode::Read,
            2 => Mode::Write,
            4 => Mode::Execute,
            _ => Mode::Own,
        }
    }
}

impl Mode {
    /// Rights and accesses to write and to own carry a level condition.
    pub fn is_strong(self) -> bool
        ensures { result ≡ strong self }
    {
        matches!(self, Mode::Write | Mode::Own)
    }
}

/// A fact about sessions (1 to 63), entities (64 to 255), items (both) and roles (0 to 31), by their numbers.
#[derive(Clone, Copy, Debug, PartialEq, Eq)]
pub enum Fact {
    /// The item is alive.
    Lives(u32),
    /// The session holds the role.
    Held(u32, u32),
    /// The role has the right on the item.
    Right(u32, u32, Mode),
    /// The session has the access to the item.
    Access(u32, u32, Mode),
    /// The container holds the entity.
    Holding(u32, u32),
    /// Information can flow from the first item to the second.
    Flow(u32, u32),
    /// The first session controls the second.
    Control(u32, u32),
}
