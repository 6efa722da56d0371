//! The state of a call machine.

use crate::mode::Mode;
use safl_evaluate::{Answer, Kept, Stage, Wants};
use safl_word::Word;

/// The state of a call machine: the modes of the units and the stages of the sites. Beside them is what partial
/// evaluation has found: what each unit's body comes to, the words with which the sites are wanted, what is known of
/// each node, and room for the words of a body's slots.
#[derive(Drop)]
pub struct State {
    pub modes: Vec<Mode>,
    pub stages: Vec<Stage>,
    pub answers: Vec<Answer>,
    pub wants: Wants,
    pub env: Vec<Word>,
    pub kept: Vec<Kept>,
}
