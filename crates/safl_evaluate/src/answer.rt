//! What the body of a unit comes to.

ghost use Rattle.std.specs.Prelude.{◌≡◌, ◌≤◌, ◌∷◌, [], IfSome, is_some, length, Some};
ghost use Rattle.safl_term.specs.Readiness as plain;
ghost use Rattle.safl_evaluate.specs.Answers.{args_given, passed_on, HasRoom};
ghost use Rattle.safl_evaluate.specs.Answers as shown;

use crate::args::Args;
use safl_word::Word;
use std::marker::Model;

/// What a body comes to: a word, a tail call of a function of its group, or nothing yet.
#[derive(Clone, Copy)]
pub enum Kind {
    Ready(Word),
    Loop(u32),
    NotYet,
}

/// What the body that a unit runs comes to. The arguments of a tail call are written in place.
#[derive(Drop)]
pub struct Answer {
    kind: Kind,
    args: Args,
}

impl Model for Answer {
    ghost use Rattle.safl_term.specs.Readiness as plain;
    ghost use Rattle.safl_evaluate.specs.Answers.{answer_of};

    ghost Value = { plain.Answer };

    ghost view = { λ a. answer_of a.kind a.args };
}

impl Answer {
    /// The answer of a body that has come to nothing yet.
    pub fn new() -> Answer
        ensures { result ≡ plain.NotYet }
    {
        Answer {
            kind: Kind::NotYet,
            args: Args::new(&[]),
        }
    }

    /// Notes that the body comes to this word, or to nothing yet if there is none.
    pub fn settle(&mut self, word: Option<Word>)
        ensures { self.new ≡ plain.ready_from word }
    {
        self.kind = match word {
            Some(word) => Kind::Ready(word),
            None => Kind::NotYet,
        };
    }

    /// Notes that the body comes to a tail call of function `member` with these words.
    pub fn pass(&mut self, member: u32, words: &[Word])
        requires { length words.now ≤ 16 }
        ensures { self.new ≡ plain.LoopTo member words.now }
    {
        self.args.set(words);
        self.kind = Kind::Loop(member);
    }

    /// The body comes to a tail call of a member, whose words are to be added.
    pub fn begin(&mut self, member: u32)
        ensures { self.new ≡ plain.LoopTo member [] }
    {
        self.args.clear();
        self.kind = Kind::Loop(member);
    }

    /// One more word for the tail call.
    pub fn add(&mut self, word: Word)
        requires { HasRoom self.old 1 }
        ensures { self.new ≡ passed_on self.old (word ∷ []) }
    {
        match self.kind {
            Kind::Ready(_) => unreachable!(),
            Kind::Loop(_) => self.args.push(word),
            Kind::NotYet => unreachable!(),
        }
    }

    /// The word that the body comes to.
    pub fn word(&self) -> Option<Word>
        ensures { result ≡ plain.word_of self.now }
    {
        match self.kind {
            Kind::Ready(word) => Some(word),
            Kind::Loop(_) => None,
            Kind::NotYet => None,
        }
    }

    /// The arguments of the tail call that the body comes to.
    pub fn passed(&self) -> Option<&Args>
        ensures some { IfSome result (λ a. Some a.now ≡ args_given self.now) }
        ensures none { is_some result ≡ is_some (args_given self.now) }
    {
        match self.kind {
            Kind::Ready(_) => None,
            Kind::Loop(_) => Some(&self.args),
            Kind::NotYet => None,
        }
    }

    /// Whether the body comes to a word.
    pub fn is_ready(&self) -> bool
        ensures { result ≡ shown.is_ready self.now }
    {
        match self.kind {
            Kind::Ready(_) => true,
            Kind::Loop(_) => false,
            Kind::NotYet => false,
        }
    }

    /// Whether the body comes to a tail call of function `h`.
    pub fn loops_to(&self, h: u32) -> bool
        ensures { result ≡ shown.loops_to self.now h }
    {
        match self.kind {
            Kind::Ready(_) => false,
            Kind::Loop(member) => member == h,
            Kind::NotYet => false,
        }
    }
}
