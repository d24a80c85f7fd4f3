ghost use Rattle.std.specs.Prelude.{◌≡◌, IsTrue};
ghost use Rattle.policy.specs.Order.{Order, Lawful, ladder, badges};
ghost use Rattle.std.proofs.Common.{rules, arith};
ghost use Rattle.std.specs.Int.Bits.{and_self};
ghost use Rattle.std.proofs.lemmas.Nat.{and_comm, and_mask};
ghost use Rattle.policy.specs.Subset.{within_trans};

/// A level order: its top code, the codes that it knows, and which code is at or below which.
pub trait LevelOrder {
    ghost meaning: { Self → Order };

    /// The code that is above all others.
    fn top(&self) -> u32
        ensures { result ≡ (meaning self.now).top };

    /// Whether `code` is a level.
    fn knows(&self, code: u32) -> bool
        ensures { result ≡ (meaning self.now).known code };

    /// Whether `a` is at or below `b`; a code that is no level is related to none.
    fn at_or_below(&self, a: u32, b: u32) -> bool
        ensures { result ≡ (meaning self.now).below a b };

    ghost lawful: { (o : Self) → Lawful (meaning o) };
}

/// Sixteen levels, 0 to 15, compared as numbers.
#[derive(Clone, Copy, PartialEq, Eq)]
pub struct Ladder;

impl LevelOrder for Ladder {
    ghost meaning = { λ _. ladder };

    ghost lawful = { Prim.search rules };

    fn top(&self) -> u32 {
        15
    }

    fn knows(&self, code: u32) -> bool {
        code <= 15
    }

    fn at_or_below(&self, a: u32, b: u32) -> bool {
        a <= b && b <= 15
    }
}

/// Sets of eight badges, 0 to 255, compared by inclusion.
#[derive(Clone, Copy, PartialEq, Eq)]
pub struct Badges;

impl LevelOrder for Badges {
    ghost meaning = { λ _. badges };

    ghost lawful = { λ o.
        record {
          reflexive = λ a k. Prim.grind (arith, and_self a);
          transitive = λ a b c s t. Prim.grind (arith, within_trans a b c);
          antisymmetric = λ a b s t. Prim.grind (arith, and_comm a b);
          related = λ a b s. Prim.grind arith;
          top_known = tt;
          under_top = λ a k. Prim.grind (arith, and_mask a 8);
        } };

    fn top(&self) -> u32 {
        255
    }

    fn knows(&self, code: u32) -> bool {
        code <= 255
    }

    fn at_or_below(&self, a: u32, b: u32) -> bool {
        a <= 255 && b <= 255 && a & b == a
    }
}

/// Badges are no numbers: 1 is at or below 5, and 3 is not.
pub fn worked_orders()
    ensures { IsTrue (badges.below 1 5) × ¬ IsTrue (badges.below 3 5) }
{}
