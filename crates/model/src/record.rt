//! What is written down of accounts, roles and items. A set of roles is the sum of 2^r over its roles r, and a key of 0 is
//! none.
ghost use Rattle.std.specs.Prelude.{◌≡◌};
ghost use Rattle.model.specs.Records.{mark_of};

/// An account: its level, whether it is guarded, which roles it may take, and its key.
#[derive(Clone, Copy, Debug, Default, PartialEq, Eq)]
pub struct Account {
    pub level: u32,
    pub guarded: bool,
    pub takes: u32,
    pub key: u32,
}

/// A role: its level, which ordinary roles an administrative one manages, and its key. An ordinary role manages `None`.
#[derive(Clone, Copy, Debug, Default, PartialEq, Eq)]
pub struct Role {
    pub level: u32,
    pub manages: Option<u32>,
    pub key: u32,
}

/// A container's mark: one that is checked lets only sessions at or above its level pass, and one that is shared gives up
/// only what a role of the session owns.
#[derive(Clone, Copy, Debug, Default, PartialEq, Eq)]
pub struct Mark {
    pub checked: bool,
    pub shared: bool,
}

/// A mark by its number: 0 plain, 1 checked, 2 shared, 3 both. Any other number is plain.
impl From<u32> for Mark {
    ghost from_gives = { λ number mark. mark ≡ mark_of number };

    fn from(number: u32) -> Mark {
        Mark {
            checked: number == 1 || number == 3,
            shared: number == 2 || number == 3,
        }
    }
}

/// An item: its level, and the mark of a container. An object or a session has none.
#[derive(Clone, Copy, Debug, Default, PartialEq, Eq)]
pub struct Item {
    pub level: u32,
    pub container: Option<Mark>,
}
