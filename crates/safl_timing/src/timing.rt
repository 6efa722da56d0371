//! The time of main on arguments, by a source.

ghost use Rattle.std.specs.Prelude.{◌≡◌, ◌≤◌, length, map, string_bytes, IfOk, IfErr};
ghost use Rattle.safl_word.specs.Limits.{source_max};
ghost use Rattle.safl_word.specs.Words.{widths};
ghost use Rattle.safl_tool.specs.CommandTasks.{RefusesGiven};
ghost use Rattle.safl_tool.specs.Refusals.{RefusesBy};
ghost use Rattle.safl_timing.specs.Tasks.{GivesFigures, GivesTime, shown};

use crate::lines::{push_late, push_timing};
use safl_sites::Planned;
use safl_span::time;
use safl_tool::arguments::{main_widths, read_arguments};
use safl_tool::refusal::Refusal;
use safl_tool::source::plan_source;
use safl_word::{NoMemory, Word};
use std::alloc::Global;

/// The greatest number of calls of an evaluation that is measured.
pub const CALLS_MAX: u32 = u32::MAX;

/// A text to be printed, and whether it has figures.
#[derive(Drop)]
pub struct Lines {
    pub comes: bool,
    pub text: Vec<u8>,
}

/// The lines with the time of main on these arguments, by the source `name`; or why it is refused.
pub fn time_source<'a>(
    alloc: Global,
    name: &'a str,
    source: &[u8],
    args: &[String],
) -> Result<Lines, Refusal<'a>>
    requires { length source.now ≤ source_max }
    ensures gives { IfOk result (λ l. GivesTime (map string_bytes args.now) source.now (shown l)) }
    ensures refused { IfErr result (RefusesBy (RefusesGiven name.now (map string_bytes args.now) source.now)) }
{
    let planned = match plan_source(alloc, name, source) {
        Ok(planned) => planned,
        Err(refusal) => return Err(refusal),
    };
    let Ok(widths) = main_widths(alloc, planned.checked()) else {
        return Err(Refusal::NoMemory);
    };
    let words = match read_arguments(alloc, &widths, args) {
        Ok(words) => words,
        Err(refusal) => return Err(refusal),
    };
    match time_lines(alloc, &planned, &words) {
        Ok(lines) => Ok(lines),
        Err(NoMemory) => Err(Refusal::NoMemory),
    }
}

// The lines with the time of main on these words.
fn time_lines(alloc: Global, planned: &Planned, words: &[Word]) -> Result<Lines, NoMemory>
    requires { widths words.now ≡ planned.now.program.params planned.now.program.main }
    ensures { IfOk result (λ l. GivesFigures planned.now.program planned.now.choice words.now (shown l)) }
{
    let mut text = Vec::new(alloc);
    match time(alloc, planned, words, CALLS_MAX)? {
        Some(figures) => {
            push_timing(&mut text, figures)?;
            Ok(Lines { comes: true, text })
        }
        None => {
            push_late(&mut text, CALLS_MAX)?;
            Ok(Lines { comes: false, text })
        }
    }
}
