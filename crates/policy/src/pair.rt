ghost use Rattle.std.specs.Prelude.{◌≡◌};
ghost use Rattle.policy.specs.Rule.{proper, parts};

use crate::role::has_role;

/// Two roles that no session may ever take both.
#[derive(Clone, Copy, PartialEq, Eq)]
pub struct Pair {
    pub first: u32,
    pub second: u32,
}

impl Pair {
    /// Whether these are two roles: both are below 32, and they differ.
    pub(crate) fn is_proper(&self) -> bool
        ensures { result ≡ proper self.now }
    {
        self.first < 32 && self.second < 32 && self.first != self.second
    }

    /// Whether the life record has one role of the pair, and the asked role is the other.
    pub(crate) fn parts(&self, life: u32, role: u32) -> bool
        ensures { result ≡ parts life role self.now }
    {
        has_role(life, self.first) && role == self.second
            || has_role(life, self.second) && role == self.first
    }
}
