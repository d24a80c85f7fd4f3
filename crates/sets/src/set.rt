ghost use Rattle.std.specs.Prelude.{◌≡◌, ℕ, ◌*◌, ◌<◌, true, false, not, ◌&&◌, ◌||◌, MatchBool, ◌==◌, if◌then◌else◌};
ghost use Rattle.sets.specs.Member.{bit, in_set};

/// A set of numbers below 64 W, a bit for each.
#[derive(Clone, Copy)]
pub struct Set<const W: usize> {
    words: [u64; W],
}

/// A set of numbers below 64.
pub type Set64 = Set<1>;

/// A set of numbers below 256.
pub type Set256 = Set<4>;

/// Whether the two words share a bit.
fn share(a: u64, b: u64) -> bool
    ensures { MatchBool result ((k : ℕ) × (k < 64) × (bit a k ≡ true) × (bit b k ≡ true)) ((k : ℕ) → bit a k ≡ true → bit b k ≡ false) }
{
    a & b != 0
}

impl<const W: usize> Set<W> {
    /// The set that has no number.
    pub fn new() -> Self
        ensures { (k : ℕ) → in_set result k ≡ false }
    {
        Set { words: [0; W] }
    }

    /// Takes every number out.
    pub fn clear(&mut self)
        ensures { (k : ℕ) → in_set self.new k ≡ false }
    {
        *self = Set::new();
    }

    /// Whether the set has no number.
    pub fn is_empty(&self) -> bool
        ensures { MatchBool result ((k : ℕ) → in_set self.now k ≡ false) ((k : ℕ) × (k < 64 * W) × (in_set self.now k ≡ true)) }
    {
        !self.meets(self)
    }

    /// Whether the set has `i`.
    pub fn has(&self, i: usize) -> bool
        requires { i < 64 * W }
        ensures { result ≡ in_set self.now i }
    {
        (self.words[i / 64] >> (i % 64)) & 1 == 1
    }

    /// Adds `i`, keeps the others, and says whether `i` is new; if not, the set is as it was.
    pub fn insert(&mut self, i: usize) -> bool
        requires { i < 64 * W }
        ensures members { (k : ℕ) → in_set self.new k ≡ (in_set self.old k || k == i) }
        ensures grew { MatchBool result (in_set self.old i ≡ false) (self.new ≡ self.old) }
    {
        if self.has(i) {
            return false;
        }
        self.words[i / 64] |= 1 << (i % 64);
        true
    }

    /// Takes `i` out and keeps the others.
    pub fn remove(&mut self, i: usize)
        requires { i < 64 * W }
        ensures { (k : ℕ) → in_set self.new k ≡ (not (k == i) && in_set self.old k) }
    {
        self.words[i / 64] &= !(1 << (i % 64));
    }

    /// The set has `i` from now on, or no more.
    // `present` is what is written, and no step to run.
    pub fn put(&mut self, i: usize, present: bool)
        requires { i < 64 * W }
        ensures { (k : ℕ) → in_set self.new k ≡ (if k == i then present else in_set self.old k) }
    {
        if present {
            let _ = self.insert(i);
        } else {
            self.remove(i);
        }
    }

    /// Adds the numbers of `other`, and says whether one is new; if none is, the set is as it was.
    pub fn merge(&mut self, other: &Set<W>) -> bool
        ensures members { (k : ℕ) → in_set self.new k ≡ (in_set self.old k || in_set other.now k) }
        ensures grew { MatchBool result ((k : ℕ) × (k < 64 * W) × (in_set self.old k ≡ false) × (in_set self.new k ≡ true)) (self.new ≡ self.old) }
    {
        let mut grew = false;
        // Not by `zip`: after an adapter of `iter_mut` a proof knows nothing of what was written.
        for (j, word) in self.words.iter_mut().enumerate() {
            let old = *word;
            *word |= other.words[j];
            grew |= *word != old;
        }
        grew
    }

    /// Whether the two sets share a number.
    pub fn meets(&self, other: &Set<W>) -> bool
        ensures { MatchBool result ((k : ℕ) × (k < 64 * W) × (in_set self.now k ≡ true) × (in_set other.now k ≡ true)) ((k : ℕ) → in_set self.now k ≡ true → in_set other.now k ≡ false) }
    {
        self.words
            .iter()
            .zip(&other.words)
            .any(|(a, b)| share(*a, *b))
    }

    /// The numbers below 64, as a set of their own.
    pub fn first(&self) -> Set<1>
        ensures { (k : ℕ) → k < 64 → in_set result k ≡ in_set self.now k }
    {
        Set {
            words: [self.words.first().copied().unwrap_or(0)],
        }
    }
}
