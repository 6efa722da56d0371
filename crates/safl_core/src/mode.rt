//! The modes of units.

ghost use Rattle.std.specs.Prelude.{◌≡◌, ◌≤◌, ℕ, List, length};
ghost use Rattle.safl_word.specs.Words.{Word as a_word};
ghost use Rattle.safl_calls.specs.Machine as core;
ghost use Rattle.safl_core.specs.Modes.{idle_mode, mode_of};
ghost use Rattle.safl_core.specs.Shown.{serves_of};

use safl_evaluate::Args;
use safl_word::Word;

/// What a unit does: nothing, run a function for the site that it serves, or deliver a word to that site.
#[derive(Clone, Copy)]
pub enum Act {
    Idle,
    /// The function, and the site.
    Runs(u32, u32),
    /// The site, and the word.
    Delivers(u32, Word),
}

/// The mode of a unit: what it does, and the arguments of the function if it runs one. They are written in place, since a
/// copy of a whole mode costs more than most events.
#[derive(Drop)]
pub struct Mode {
    pub act: Act,
    pub args: Args,
}

impl Mode {
    /// The mode of an idle unit.
    pub fn idle() -> Mode
        ensures { result ≡ idle_mode }
    {
        Mode {
            act: Act::Idle,
            args: Args::new(&[]),
        }
    }

    /// The unit is idle from now on.
    pub fn rest(&mut self)
        ensures { mode_of self.new ≡ core.Idle }
    {
        self.act = Act::Idle;
    }

    /// The unit runs a function with these arguments from now on, for a site.
    pub fn run(&mut self, function: u32, site: u32, words: &[Word])
        requires { length words.now ≤ 16 }
        ensures { mode_of self.new ≡ core.Runs function site words.now }
    {
        self.args.set(words);
        self.act = Act::Runs(function, site);
    }

    /// The unit delivers a word to a site from now on.
    pub fn deliver(&mut self, site: u32, word: Word)
        ensures { mode_of self.new ≡ core.Delivers site word }
    {
        self.act = Act::Delivers(site, word);
    }

    /// A running unit goes on with this function and these arguments, for the same site.
    pub fn enter(&mut self, member: u32, words: &[Word])
        requires few { length words.now ≤ 16 }
        requires runs { (f : ℕ) × (k : ℕ) × (ws : List a_word) × (mode_of self.old ≡ core.Runs f k ws) }
        ensures { mode_of self.new ≡ core.Runs member (serves_of (mode_of self.old)) words.now }
    {
        match self.act {
            Act::Idle => unreachable!(),
            Act::Runs(_, site) => self.run(member, site, words),
            Act::Delivers(_, _) => unreachable!(),
        }
    }
}
