//! Relations that go on: what leads to a number leads on to all that the number leads to.
ghost use Rattle.std.specs.Prelude.{◌≡◌, ℕ, ◌*◌, ◌<◌, ◌≤◌};
ghost use Rattle.sets.specs.Chains.{Extends, LeadsOn, Through};

use crate::relation::Relation;

impl<const N: usize, const W: usize> Relation<N, W> {
    /// Row `a` gets the numbers of row `b`, if it has `b`; says whether one is new.
    fn lead_on(&mut self, a: usize, b: usize) -> bool
        requires a { a < N }
        requires b { (b < N) × (b < 64 * W) }
        ensures { Extends self.old self.new result (LeadsOn a b) }
    {
        if !self.has(a, b) {
            return false;
        }
        let behind = *self.row(b);
        self.join(a, &behind)
    }

    /// Each row that has `b` gets the numbers of row `b`; says whether one is new. Most rows have none.
    fn lead_through(&mut self, b: usize) -> bool
        requires { (b < N) × (b < 64 * W) }
        ensures { Extends self.old self.new result (Through b) }
    {
        if self.row(b).is_empty() {
            return false;
        }
        let mut grew = false;
        for a in 0..N {
            grew |= self.lead_on(a, b);
        }
        grew
    }

    /// Every row once gets the numbers of the rows that it has; says whether one is new, and if none is, the relation goes on
    /// from each number. The number between is the outer loop, so that one pass mostly closes the relation.
    pub fn go_on(&mut self) -> bool
        requires { N ≡ 64 * W }
        ensures { Extends self.old self.new result (λ r. (b : ℕ) → b < N → Through b r) }
    {
        let mut grew = false;
        for b in 0..N {
            grew |= self.lead_through(b);
        }
        grew
    }
}
