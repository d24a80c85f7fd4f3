ghost use Rattle.std.specs.Prelude.{◌≡◌, ℕ, ◌<◌, ◌≤◌, true, false, ◌||◌, MatchOption, ◌==◌};
ghost use Rattle.sets.specs.Member.{bit};
ghost use Rattle.policy.specs.Rule.{Rule, admissible, separation, members, quota};

use crate::pair::Pair;
use crate::role::with_role;

/// A house rule: its answer to an account, a life record and a role.
pub trait HouseRule {
    ghost answers: { Self → Rule };

    /// Whether a session of `account` that has ever taken the roles of `life` may take `role`.
    fn allows(&self, account: u32, life: u32, role: u32) -> bool
        ensures { result ≡ answers self.now account life role };
}

/// Pairs of roles, at most eight, that no session may ever take both.
#[derive(Clone, Copy)]
pub struct Separation<'a> {
    pairs: &'a [Pair],
    ghost of_roles: { admissible pairs.now ≡ true },
}

impl<'a> Separation<'a> {
    /// The rule of these pairs, or none if there is a ninth pair, or one that is not of two roles.
    pub fn new(pairs: &'a [Pair]) -> Option<Separation<'a>>
        ensures { MatchOption result (admissible pairs.now ≡ false) (λ s. (s.pairs.now ≡ pairs.now) × (admissible pairs.now ≡ true)) }
    {
        if pairs.len() <= 8 && pairs.iter().all(|pair| pair.is_proper()) {
            Some(Separation { pairs })
        } else {
            None
        }
    }
}

impl HouseRule for Separation<'_> {
    ghost answers = { λ s. separation s.pairs.now };

    fn allows(&self, _account: u32, life: u32, role: u32) -> bool {
        !self.pairs.iter().any(|pair| pair.parts(life, role))
    }
}

/// A group of roles, of which a session may ever take at most `most`.
#[derive(Clone, Copy)]
pub struct Quota {
    group: u32,
    most: u32,
    ghost at_most_all: { most ≤ 32 },
}

impl Quota {
    /// The rule of this group, or none if `most` is over 32.
    pub fn new(group: u32, most: u32) -> Option<Quota>
        ensures { MatchOption result (32 < most) (λ q. (q.group ≡ group) × (q.most ≡ most) × (most ≤ 32)) }
    {
        if most <= 32 {
            Some(Quota { group, most })
        } else {
            None
        }
    }
}

/// The life record once `role` is taken; a number above 31 is no role, and adds nothing.
fn taken(life: u32, role: u32) -> u32
    ensures { (k : ℕ) → k < 32 → bit result k ≡ (bit life k || k == role) }
{
    if role < 32 {
        with_role(life, role)
    } else {
        life
    }
}

/// How many roles of the group the life record has once `role` is taken.
fn count_members(group: u32, life: u32, role: u32) -> u32
    ensures { result ≡ members group life role }
{
    (group & taken(life, role)).count_ones()
}

impl HouseRule for Quota {
    ghost answers = { λ q. quota q.group q.most };

    fn allows(&self, _account: u32, life: u32, role: u32) -> bool {
        count_members(self.group, life, role) <= self.most
    }
}

#[cfg(test)]
mod tests {
    use super::*;

    fn parted(life: u32, role: u32) -> bool {
        let pairs = [Pair {
            first: 1,
            second: 2,
        }];
        match Separation::new(&pairs) {
            Some(rule) => !rule.allows(0, life, role),
            None => false,
        }
    }

    fn over(life: u32, role: u32) -> bool {
        match Quota::new(7, 1) {
            Some(rule) => !rule.allows(0, life, role),
            None => false,
        }
    }

    #[test]
    fn rules_answer(rt: HostRuntime) {
        assert!(rt; parted(1 << 1, 2) && parted(1 << 2, 1) && !parted(1 << 1, 1));
        assert!(rt; over(1, 1) && !over(1, 0) && !over(8, 0));
    }
}
