//! The arguments of a call, in place.

ghost use Rattle.std.specs.Prelude.{◌≡◌, ◌<◌, ◌≤◌, ◌++◌, ◌∷◌, [], length, take};

use safl_word::Word;
use std::marker::Model;

/// The greatest number of arguments of a call.
pub const ARGS_MAX: usize = 16;

/// At most `ARGS_MAX` words, held without memory of their own.
#[derive(Drop)]
pub struct Args {
    words: [Word; ARGS_MAX],
    count: usize,
}

impl Model for Args {
    ghost use Rattle.std.specs.Prelude.{◌≤◌, List, take};
    ghost use Rattle.safl_word.specs.Words.{Word};

    ghost Value = { List Word };

    ghost view = { λ a. take a.count a.words };

    ghost invariant = { λ a. a.count ≤ 16 };
}

impl Args {
    /// Arguments that are these words.
    pub fn new(words: &[Word]) -> Args
        requires { length words.now ≤ 16 }
        ensures { result ≡ words.now }
    {
        let mut held = [Word::from_parts(1, 0); ARGS_MAX];
        let count = words.len();
        held[..count].copy_from_slice(words);
        Args { words: held, count }
    }

    /// The words of the arguments.
    pub fn words(&self) -> &[Word]
        ensures words { result.now ≡ self.now }
        ensures few { length self.now ≤ 16 }
    {
        &self.words[..self.count]
    }

    /// Replaces the arguments by these words.
    pub fn set(&mut self, words: &[Word])
        requires { length words.now ≤ 16 }
        ensures { self.new ≡ words.now }
    {
        self.count = fill(&mut self.words, words);
    }

    /// Holds no words from now on.
    pub fn clear(&mut self)
        ensures { self.new ≡ [] }
    {
        self.count = 0;
    }

    /// One more word.
    pub fn push(&mut self, word: Word)
        requires { length self.old < 16 }
        ensures { self.new ≡ self.old ++ word ∷ [] }
    {
        self.words[self.count] = word;
        self.count += 1;
    }

    /// A copy of the arguments.
    pub fn again(&self) -> Args
        ensures { result ≡ self.now }
    {
        Args {
            words: self.words,
            count: self.count,
        }
    }
}

/// Copies words to the first slots, and returns how many they are. They are few, and one after the other they are copied sooner
/// than as one piece of memory.
pub fn fill(env: &mut [Word], words: &[Word]) -> usize
    requires { length words.now ≤ length env.old }
    ensures count { result ≡ length words.now }
    ensures filled { take (length words.now) env.new ≡ words.now }
{
    for i in 0..words.len() {
        env[i] = words[i];
    }
    words.len()
}
