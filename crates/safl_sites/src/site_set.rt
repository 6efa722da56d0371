//! Sets of call sites.

ghost use Rattle.std.specs.Prelude.{◌≡◌, ◌<◌, ◌↔◌, ℕ, false, IsTrue};
ghost use Rattle.safl_sites.specs.SiteSets.{has, Has, IsCommon, Meets, Gains};

/// The number of machine words of a set. It has a bit for each site number, up to 4,000.
const WORDS: usize = 63;

/// A set of sites, with a bit for each.
#[derive(Clone, Copy)]
pub struct SiteSet {
    words: [u64; WORDS],
}

impl SiteSet {
    /// The empty set.
    pub fn new() -> SiteSet
        ensures { (k : ℕ) → has result k ≡ false }
    {
        SiteSet { words: [0; WORDS] }
    }

    /// Whether a site is in the set.
    pub fn contains(&self, k: u32) -> bool
        requires { k < 4032 }
        ensures { result ≡ has self.now k }
    {
        self.words[k as usize / 64] >> (k % 64) & 1 == 1
    }

    /// Puts a site into the set.
    pub fn insert(&mut self, k: u32)
        requires { k < 4032 }
        ensures { Gains self.old self.new (λ j. j ≡ k) }
    {
        self.words[k as usize / 64] |= 1 << (k % 64);
    }

    /// Adds each site of another set to this one.
    pub fn union(&mut self, other: &SiteSet)
        ensures { Gains self.old self.new (Has other.now) }
    {
        for i in 0..WORDS {
            self.words[i] |= other.words[i];
        }
    }

    /// Whether a site other than `except` is in both sets.
    pub fn meets(&self, other: &SiteSet, except: u32) -> bool
        ensures { IsTrue result ↔ Meets self.now other.now except }
    {
        for i in 0..WORDS {
            let mut common = self.words[i] & other.words[i];
            if i == except as usize / 64 {
                common &= !(1 << (except % 64));
            }
            if common != 0 {
                return true;
            }
        }
        false
    }

    /// Adds each site that is in both `a` and `b`, other than `except`.
    pub fn add_common(&mut self, a: &SiteSet, b: &SiteSet, except: u32)
        ensures { Gains self.old self.new (IsCommon a.now b.now except) }
    {
        for i in 0..WORDS {
            let mut common = a.words[i] & b.words[i];
            if i == except as usize / 64 {
                common &= !(1 << (except % 64));
            }
            self.words[i] |= common;
        }
    }
}
