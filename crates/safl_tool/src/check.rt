//! The command `check IN`: the numbers of functions and call sites of a source.

ghost use Rattle.std.specs.Prelude.{◌≡◌, ◌≤◌, ◌++◌, OnOk, IfOk, IfErr, length};
ghost use Rattle.safl_tool.specs.Answers.{printed};
ghost use Rattle.safl_tool.specs.CommandTasks.{GivesNumbers, RefusesSourceOf};
ghost use Rattle.safl_word.specs.Limits.{source_max};
ghost use Rattle.safl_tool.specs.Printed.{program_lines};
ghost use Rattle.safl_tool.specs.Refusals.{RefusesBy};

use crate::answer::Lines;
use crate::refusal::{Refusal, push};
use crate::source::check_source;
use safl_term::Checked;
use safl_word::{NoMemory, Raw, push_decimal};
use std::alloc::Global;

/// The lines with the numbers of functions and call sites of the source `name`, or why the source is refused.
pub fn check_lines<'a>(alloc: Global, name: &'a str, source: &[u8]) -> Result<Lines, Refusal<'a>>
    requires { length source.now ≤ source_max }
    ensures gives { IfOk result (λ l. GivesNumbers source.now (printed l)) }
    ensures refused { IfErr result (RefusesBy (RefusesSourceOf name.now source.now)) }
{
    let checked = check_source(alloc, name, source)?;
    let text = text_of(alloc, &checked)?;
    Ok(Lines { comes: true, text })
}

fn text_of(alloc: Global, checked: &Checked) -> Result<Vec<u8>, NoMemory>
    ensures { IfOk result (λ text. text.items ≡ program_lines checked.now.program.functions checked.now.program.sites) }
{
    let mut text = Vec::new(alloc);
    push_program(&mut text, checked.functions(), checked.sites())?;
    Ok(text)
}

/// Appends the numbers of functions and of call sites of a program.
pub fn push_program(text: &mut Vec<u8>, functions: u32, sites: u32) -> Result<(), NoMemory>
    ensures { OnOk result (text.new.items ≡ text.old.items ++ program_lines functions sites) }
{
    push(text, b"functions ")?;
    push_decimal(Raw::from(functions), text)?;
    push(text, b"\nsites ")?;
    push_decimal(Raw::from(sites), text)?;
    push(text, b"\n")?;
    Ok(())
}
