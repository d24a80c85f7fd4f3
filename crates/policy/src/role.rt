// Roles run from 0 to 31, and a set of roles is the sum of 2 ^ r over its roles r.
ghost use Rattle.std.specs.Prelude.{◌≡◌, ◌^◌, ◌<◌, bit_or};
ghost use Rattle.sets.specs.Member.{bit};

/// Whether the set has `role`; it never has one above 31.
pub fn has_role(set: u32, role: u32) -> bool
    ensures { result ≡ bit set role }
{
    role < 32 && (set >> role) & 1 == 1
}

/// The set with `role` added.
pub fn with_role(set: u32, role: u32) -> u32
    requires { role < 32 }
    ensures { result ≡ bit_or set (2 ^ role) }
{
    set | (1 << role)
}
