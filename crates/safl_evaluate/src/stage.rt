//! The stages of call sites.

use safl_word::Word;

/// The stage of a call site: its call has not started, is running, or has returned this word.
#[derive(Clone, Copy, Debug, PartialEq, Eq)]
pub enum Stage {
    Unsent,
    Sent,
    Returned(Word),
}
