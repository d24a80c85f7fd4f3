ghost use Rattle.std.specs.Prelude.{◌≡◌, ℕ, ◌*◌, ◌^◌, ◌<◌, true, false, not, ◌&&◌, ◌||◌, MatchBool, ◌==◌, nat_eq, if◌then◌else◌};
ghost use Rattle.sets.specs.Member.{in_set, relates};

use crate::set::Set;

/// Which of N rows has which of the numbers below 64 W.
#[derive(Clone, Copy)]
pub struct Relation<const N: usize, const W: usize> {
    rows: [Set<W>; N],
}

impl<const N: usize, const W: usize> Relation<N, W> {
    /// No row has a number. The numbers are each a `usize`.
    pub fn new() -> Self
        requires { 64 * W < 2 ^ 64 }
        ensures { (x z : ℕ) → relates result x z ≡ false }
    {
        Relation {
            rows: [Set::new(); N],
        }
    }

    /// The numbers of row `i`.
    pub fn row(&self, i: usize) -> &Set<W>
        requires { i < N }
        ensures { (k : ℕ) → in_set result.now k ≡ relates self.now i k }
    {
        // As a slice: a proof does not know how long an array of generic elements is behind a `&`.
        let rows: &[Set<W>] = &self.rows;
        &rows[i]
    }

    /// Whether row `i` has the number `k`.
    pub fn has(&self, i: usize, k: usize) -> bool
        requires row { i < N }
        requires number { k < 64 * W }
        ensures { result ≡ relates self.now i k }
    {
        self.row(i).has(k)
    }

    /// Row `i` has the number `k` from now on; says whether that is new, and if not, nothing has changed.
    pub fn add(&mut self, i: usize, k: usize) -> bool
        requires row { i < N }
        requires number { k < 64 * W }
        ensures members { (x z : ℕ) → relates self.new x z ≡ (relates self.old x z || (nat_eq x i && z == k)) }
        ensures grew { MatchBool result (relates self.old i k ≡ false) (self.new ≡ self.old) }
    {
        self.rows[i].insert(k)
    }

    /// Row `i` has the numbers of `more` from now on; says whether one is new, and if none is, nothing has changed.
    pub fn join(&mut self, i: usize, more: &Set<W>) -> bool
        requires { i < N }
        ensures members { (x z : ℕ) → relates self.new x z ≡ (relates self.old x z || (x == i && in_set more.now z)) }
        ensures grew { MatchBool result ((k : ℕ) × (k < 64 * W) × (relates self.old i k ≡ false) × (relates self.new i k ≡ true)) (self.new ≡ self.old) }
    {
        self.rows[i].merge(more)
    }

    /// Row `i` has the number `k` from now on, or no more.
    // `present` is what is written, and no step to run.
    pub fn put(&mut self, i: usize, k: usize, present: bool)
        requires row { i < N }
        requires number { k < 64 * W }
        ensures { (x z : ℕ) → relates self.new x z ≡ (if nat_eq x i && z == k then present else relates self.old x z) }
    {
        self.rows[i].put(k, present);
    }

    /// Row `i` has no number.
    pub fn clear_row(&mut self, i: usize)
        requires { i < N }
        ensures { (x z : ℕ) → relates self.new x z ≡ (not (x == i) && relates self.old x z) }
    {
        self.rows[i].clear();
    }

    /// No row has the number `k`.
    pub fn clear_column(&mut self, k: usize)
        requires { k < 64 * W }
        ensures { (x z : ℕ) → relates self.new x z ≡ (not (z == k) && relates self.old x z) }
    {
        for row in self.rows.iter_mut() {
            row.remove(k);
        }
    }

    /// Row `i` has no number, and no row has the number `i`.
    pub fn forget(&mut self, i: usize)
        requires row { i < N }
        requires number { i < 64 * W }
        ensures { (x z : ℕ) → relates self.new x z ≡ (not (x == i || z == i) && relates self.old x z) }
    {
        self.clear_row(i);
        self.clear_column(i);
    }
}
