//! Marks of steps and registers, one bit for each.

ghost use Rattle.std.specs.Prelude.{◌≡◌, ℕ, ◌+◌, ◌*◌, ◌/◌, ◌<◌, ◌≤◌, ◌^◌, List, length, IfSome, IfNone};
ghost use Rattle.safl_sim.specs.Marks.{TakesFirst};

use std::alloc::{AllocError, Global};
use std::marker::Model;

/// How many words hold `count` bits.
pub fn word_count(count: usize) -> usize
    requires { count < 2 ^ 63 }
    ensures { result ≡ (count + 63) / 64 }
{
    (count + 63) / 64
}

/// The place of a mark in its word, and the word without it.
#[derive(Clone, Copy)]
pub struct Taken {
    pub bit: usize,
    pub left: u64,
}

/// Takes the first mark out of a word.
#[inline(always)]
pub fn take_held(held: u64) -> Option<Taken>
    ensures none { IfNone result (held ≡ 0) }
    ensures within { IfSome result (λ t. t.bit < 64) }
    ensures some { IfSome result (λ t. TakesFirst held t.bit t.left) }
{
    if held == 0 {
        None
    } else {
        let bit = held.trailing_zeros();
        Some(Taken {
            bit: bit as usize,
            left: held & !(1u64 << bit),
        })
    }
}

/// Marks of numbers, one bit for each, in words of 64; and a second layer with a bit for each word, which is 1 if the
/// word is not 0. So a search for marks looks at 64 words at a time.
#[derive(Drop)]
pub struct Marks {
    words: Vec<u64>,
    filled: Vec<u64>,
}

impl Model for Marks {
    ghost use Rattle.std.specs.Prelude.{List, ℕ};
    ghost use Rattle.safl_sim.specs.Marks.{Covers};

    ghost Value = { List ℕ };

    ghost view = { λ m. m.words.items };

    ghost invariant = { λ m. Covers m.filled.items m.words.items };
}

impl Marks {
    ghost use Rattle.std.specs.Prelude.{◌≡◌, ℕ, ◌+◌, ◌*◌, ◌/◌, ◌<◌, ◌≤◌, ◌^◌, length, slice_index, slice_set, bit_or, IfOk};
    ghost use Rattle.safl_sim.specs.Marks.{marked, HasMark, NoneBetween, HasRange};

    /// `count` words without marks.
    pub fn new(alloc: Global, count: usize) -> Result<Marks, AllocError>
        requires { count < 2 ^ 40 }
        ensures long { IfOk result (λ m. length m ≡ count) }
        ensures none { IfOk result (λ m. (w : ℕ) → slice_index m w ≡ 0) }
    {
        Ok(Marks {
            words: vec![in alloc; 0; count]?,
            filled: vec![in alloc; 0; word_count(count)]?,
        })
    }

    /// The number of words.
    #[inline(always)]
    pub fn count(&self) -> usize
        ensures { result ≡ length self.now }
    {
        self.words.len()
    }

    /// The marks of a word.
    #[inline(always)]
    pub fn get(&self, word: usize) -> u64
        requires { word < length self.now }
        ensures { result ≡ slice_index self.now word }
    {
        self.words[word]
    }

    /// Writes the marks of a word.
    #[inline(always)]
    pub fn put(&mut self, word: usize, marks: u64)
        requires { word < length self.old }
        ensures { self.new ≡ slice_set self.old word marks }
    {
        self.words[word] = marks;
        // The bit of the second layer may be 1 already. A test for that would be a jump that the processor often
        // guesses wrong.
        if marks == 0 {
            self.filled[word / 64] &= !(1u64 << (word % 64));
        } else {
            self.filled[word / 64] |= 1u64 << (word % 64);
        }
    }

    /// Adds marks to a word, if there is such a word.
    #[inline(always)]
    pub fn join(&mut self, word: usize, marks: u64)
        ensures { self.new ≡ slice_set self.old word (bit_or (slice_index self.old word) marks) }
    {
        if word < self.words.len() {
            let group = word / 64;
            self.words[word] |= marks;
            self.filled[group] |= 1u64 << (word % 64);
        }
    }

    /// Marks a number.
    #[inline(always)]
    pub fn mark(&mut self, i: usize)
        requires { i / 64 < length self.old }
        ensures { HasMark self.old self.new i }
    {
        let word = i / 64;
        let marks = self.words[word] | 1u64 << (i % 64);
        self.put(word, marks);
    }

    /// The first word with a mark, from word `from` on; or `end` if no word before that has one.
    #[inline(always)]
    pub fn next(&self, from: usize, end: usize) -> usize
        requires ordered { from ≤ end }
        requires within { end ≤ length self.now }
        ensures least { from ≤ result }
        ensures most { result ≤ end }
        ensures none { NoneBetween self.now from result }
    {
        if from == end {
            return end;
        }
        // The word at `from` is tested first, so that the work on it does not wait for a search. Small circuits have
        // all their marks in one word.
        if self.get(from) != 0 {
            return from;
        }
        let begun = from / 64;
        let left = self.filled[begun] >> (from % 64);
        if left != 0 {
            return end.min(from + left.trailing_zeros() as usize);
        }
        'groups: for b in begun + 1..word_count(end) {
            let block = self.filled[b];
            if block != 0 {
                return end.min(b * 64 + block.trailing_zeros() as usize);
            }
        }
        end
    }

    /// Marks the numbers from `from` to `to`, without `to` itself.
    pub fn mark_range(&mut self, from: usize, to: usize)
        requires ordered { from ≤ to }
        requires room { to ≤ length self.old * 64 }
        ensures { HasRange from to self.old self.new }
    {
        'numbers: for i in from..to {
            self.mark(i);
        }
    }

    /// Removes all marks.
    pub fn clear(&mut self)
        ensures long { length self.new ≡ length self.old }
        ensures none { (k : ℕ) → marked self.new k ≡ 0 }
    {
        'words: for w in 0..self.words.len() {
            self.put(w, 0);
        }
    }
}
