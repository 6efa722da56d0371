//! What a site asks for.

ghost use Rattle.std.specs.Prelude.{◌≡◌, ◌≤◌, None, Some, IfSome, is_some, length};

use crate::args::Args;
use safl_word::Word;
use std::marker::Model;

/// The words with which a site is wanted, if it is. They are written in place.
#[derive(Drop)]
pub struct Want {
    is_wanted: bool,
    args: Args,
}

impl Model for Want {
    ghost use Rattle.std.specs.Prelude.{List, Option, Some, None, cond};
    ghost use Rattle.safl_word.specs.Words.{Word};

    ghost Value = { Option (List Word) };

    ghost view = { λ w. cond w.is_wanted (Some w.args) None };
}

impl Want {
    /// The want of a site that is not wanted.
    pub fn new() -> Want
        ensures { result ≡ None }
    {
        Want {
            is_wanted: false,
            args: Args::new(&[]),
        }
    }

    /// Notes that the site is wanted with these words.
    pub fn ask(&mut self, words: &[Word])
        requires { length words.now ≤ 16 }
        ensures { self.new ≡ Some words.now }
    {
        self.args.set(words);
        self.is_wanted = true;
    }

    /// Notes that the site is not wanted.
    pub fn forget(&mut self)
        ensures { self.new ≡ None }
    {
        self.is_wanted = false;
    }

    /// Whether the site is wanted.
    pub fn is_wanted(&self) -> bool
        ensures { result ≡ is_some self.now }
    {
        self.is_wanted
    }

    /// The words with which the site is wanted.
    pub fn args(&self) -> Option<&Args>
        ensures some { IfSome result (λ a. self.now ≡ Some a.now) }
        ensures none { is_some result ≡ is_some self.now }
    {
        if self.is_wanted {
            Some(&self.args)
        } else {
            None
        }
    }
}
