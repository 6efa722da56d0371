//! What all sites ask for.

ghost use Rattle.std.specs.Prelude.{◌≡◌, ◌<◌, ◌≤◌, Some, length, min, max, slice_set};

use crate::want::Want;
use safl_word::Word;

/// The words with which each site is wanted, if it is. Beside them are two numbers: all sites that were asked for since
/// `begin` lie between them.
#[derive(Drop)]
pub struct Wants {
    pub each: Vec<Want>,
    pub first: u32,
    pub last: u32,
}

impl Wants {
    ghost use Rattle.std.specs.Prelude.{◌≡◌, ◌<◌, ◌≤◌, Some, length, min, max, slice_set};

    /// The wants of these sites. None has been asked for since `begin`.
    pub fn new(each: Vec<Want>) -> Wants
        ensures { result.each.items ≡ each.items }
    {
        Wants {
            each,
            first: u32::MAX,
            last: 0,
        }
    }

    /// Starts to note anew which sites are asked for.
    pub fn begin(&mut self)
        ensures { self.new.each.items ≡ self.old.each.items }
    {
        self.first = u32::MAX;
        self.last = 0;
    }

    /// Notes that site `k` is wanted with these words.
    pub fn ask(&mut self, k: u32, words: &[Word])
        requires site { k < length self.old.each.items }
        requires few { length words.now ≤ 16 }
        ensures each { self.new.each.items ≡ slice_set self.old.each.items k (Some words.now) }
        ensures first { self.new.first ≡ min self.old.first k }
        ensures last { self.new.last ≡ max self.old.last k }
    {
        self.each[k as usize].ask(words);
        self.first = self.first.min(k);
        self.last = self.last.max(k);
    }
}
