//! The evaluation of main.

ghost use Rattle.std.specs.Prelude.{◌≡◌, IfOk};
ghost use Rattle.safl_word.specs.Words.{widths};
ghost use Rattle.safl_interpreter.specs.Measured.{IsMeasured};

use crate::account::{Account, open};
use crate::rounds::{Round, make_round};
use crate::turn::Turn;
use safl_term::Checked;
use safl_word::{NoMemory, Word};
use std::alloc::Global;

/// What an evaluation of main comes to.
#[derive(Drop)]
pub struct Timing {
    /// The result.
    pub word: Word,
    /// The calls, that of main and tail calls included.
    pub calls: u32,
    /// How many of the calls are tail calls.
    pub loops: u32,
    /// The span in cycles.
    pub span: u64,
    /// For each function whether it is called.
    pub called: Vec<bool>,
}

/// Evaluates main on these arguments. None if that takes more calls than the budget, the call of main included.
///
/// # Errors
///
/// Out of memory.
pub fn measure(
    alloc: Global,
    c: &Checked,
    args: &[Word],
    budget: u32,
) -> Result<Option<Timing>, NoMemory>
    requires { widths args.now ≡ c.now.program.params c.now.program.main }
    ensures { IfOk result (λ timing. IsMeasured c.now.program args.now budget timing) }
{
    if budget == 0 {
        return Ok(None);
    }
    let mut account = open(alloc, c.functions())?;
    let mut stack = Vec::new(alloc);
    let mut turn = Turn::Enter(c.body(c.main()), args.to_vec(alloc)?, 2);
    loop {
        match make_round(alloc, c, &mut stack, turn, &mut account, budget)? {
            Round::Next(next) => turn = next,
            Round::Done(word, span) => {
                let Account {
                    calls,
                    loops,
                    called,
                } = account;
                return Ok(Some(Timing {
                    word,
                    calls,
                    loops,
                    span,
                    called,
                }));
            }
            Round::Spent => return Ok(None),
        }
    }
}
