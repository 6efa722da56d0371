//! What comes next in an evaluation.

use crate::frame::Frame;
use safl_term::Term;
use safl_word::Word;

/// What comes next.
#[derive(Drop)]
pub enum Turn<'a> {
    /// A term is evaluated: its slots, and the cycle in which it begins.
    Enter(&'a Term, Vec<Word>, u64),
    /// The parts of a term are evaluated.
    Within(Frame<'a>),
    /// A term has come to this word, and is ready in this cycle.
    Leave(Word, u64),
}
