//! What is kept of a term while a part of it is evaluated.

use safl_term::Term;
use safl_word::{Primitive, Word};

/// What is done when the words of all parts are known.
#[derive(Clone, Copy)]
pub enum Then<'a> {
    /// The part is a condition of these two branches.
    Choose(&'a Term, &'a Term),
    /// The parts are bound, and this body is evaluated.
    Bind(&'a Term),
    /// The parts are operands.
    Operate(Primitive),
    /// The parts are the arguments of this function. Whether it is a tail call, and the cycles that it takes.
    Apply(u32, bool),
}

/// Parts that are evaluated one after the other in the same slots, and what is done with their words.
#[derive(Drop)]
pub struct Frame<'a> {
    pub then: Then<'a>,
    /// The parts that are not evaluated yet.
    pub rest: &'a [Term],
    /// The words of the parts before them.
    pub words: Vec<Word>,
    pub slots: Vec<Word>,
    /// The cycle in which each of the parts begins.
    pub begun: u64,
    /// The cycle in which the parts before the rest are ready.
    pub ready: u64,
}
