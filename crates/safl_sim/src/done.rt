//! The result of a run.

use safl_word::Word;

/// The first cycle, counted from 0, in which `done` is 1, and the word of `result` in it.
#[derive(Clone, Copy, Debug, PartialEq, Eq)]
pub struct Done {
    pub cycle: u64,
    pub result: Word,
}
