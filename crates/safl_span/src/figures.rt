//! The figures of an evaluation.

ghost use Rattle.std.specs.Prelude.{◌≡◌, IfOk};
ghost use Rattle.safl_word.specs.Words.{widths};
ghost use Rattle.safl_span.specs.Figures.{IsTime};

use crate::sharing::is_shared;
use safl_interpreter::measure;
use safl_sites::Planned;
use safl_word::{NoMemory, Word};
use std::alloc::Global;

/// The figures of an evaluation of main.
#[derive(Clone, Copy)]
pub struct Figures {
    /// The result.
    pub word: Word,
    /// The calls, that of main and tail calls included.
    pub calls: u64,
    /// How many of the calls are tail calls.
    pub loops: u64,
    /// The span: no circuit of the program is done sooner.
    pub span: u64,
    /// The last cycle in which a circuit of the program may be done.
    pub latest: u64,
    /// Whether the circuit with this plan is done exactly in the cycle of the span.
    pub exact: bool,
}

/// The figures of main on these arguments. None if the evaluation takes more calls than the budget, the call of main
/// included.
///
/// # Errors
///
/// Out of memory.
pub fn time(
    alloc: Global,
    planned: &Planned,
    args: &[Word],
    budget: u32,
) -> Result<Option<Figures>, NoMemory>
    requires { widths args.now ≡ planned.now.program.params planned.now.program.main }
    ensures { IfOk result (λ figures. IsTime planned.now.program planned.now.choice args.now budget figures) }
{
    match measure(alloc, planned.checked(), args, budget)? {
        Some(timing) => {
            let calls = u64::from(timing.calls);
            let loops = u64::from(timing.loops);
            let latest = 2 * calls - loops;
            let span = timing.span;
            let exact = span == latest || !is_shared(planned, &timing.called);
            Ok(Some(Figures {
                word: timing.word,
                calls,
                loops,
                span,
                latest,
                exact,
            }))
        }
        None => Ok(None),
    }
}
