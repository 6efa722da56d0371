//! Whether the time of main tells nothing of its secret parameters.

ghost use Rattle.std.specs.Prelude.{◌≡◌, ◌≤◌, length, option_map, IfOk, IfErr};
ghost use Rattle.safl_compiler.specs.Sources.{IsSourceOf};
ghost use Rattle.safl_timing.specs.Lines.{nameless_line};
ghost use Rattle.safl_timing.specs.Secrets.{GivesBlind, GivesLabels, RefusesNames, StopsAs, nameless_in};
ghost use Rattle.safl_timing.specs.Tasks.{shown};
ghost use Rattle.safl_tool.specs.CommandTasks.{RefusesSourceOf};
ghost use Rattle.safl_tool.specs.Refusals.{RefusesBy};
ghost use Rattle.safl_word.specs.Limits.{source_max};

use crate::names::{are_secret, first_unknown, main_params, names_in};
use crate::obstacles::obstacle_lines;
use crate::stop::Stop;
use crate::timing::Lines;
use safl_check::laws::forms_are_numbered_law;
use safl_compiler::Accepted;
use safl_labels::{Finding, find_labels};
use safl_term::Checked;
use safl_tool::refusal::Refusal;
use safl_tool::source::read_program;
use safl_word::NoMemory;
use std::alloc::Global;

// The line if no secret parameter decides about time.
const BLIND: &[u8] = b"constant time\n";

/// The lines that say whether the time of main tells nothing of its secret parameters, by the source `name`; or why it is
/// refused. The list has the names of the secret parameters, or those of the others.
pub fn blind_source<'a>(
    alloc: Global,
    name: &'a str,
    source: &[u8],
    listed: bool,
    list: &[u8],
) -> Result<Lines, Stop<'a>>
    requires { length source.now ≤ source_max }
    ensures gives { IfOk result (λ l. GivesBlind listed list.now source.now (shown l)) }
    ensures refused { IfErr result (StopsAs (RefusesNames name.now list.now source.now)) }
{
    let accepted = match accepted_source(alloc, name, source) {
        Ok(accepted) => accepted,
        Err(refusal) => return Err(Stop::Refused(refusal)),
    };
    match nameless(alloc, &accepted.checked, list) {
        Ok(None) => {}
        Ok(Some(line)) => return Err(Stop::Nameless(line)),
        Err(NoMemory) => return Err(Stop::Refused(Refusal::NoMemory)),
    }
    match blind_lines(alloc, source, &accepted, listed, list) {
        Ok(lines) => Ok(lines),
        Err(NoMemory) => Err(Stop::Refused(Refusal::NoMemory)),
    }
}

// The program that the source spells, as a tree and in numbered form.
fn accepted_source<'a>(alloc: Global, name: &'a str, source: &[u8]) -> Result<Accepted, Refusal<'a>>
    requires { length source.now ≤ source_max }
    ensures accepted { IfOk result (λ a. IsSourceOf source.now a.checked.program a.checked.names) }
    ensures refused { IfErr result (RefusesBy (RefusesSourceOf name.now source.now)) }
{
    forms_are_numbered_law();
    match read_program(alloc, name, source) {
        Ok(accepted) => Ok(accepted),
        Err(refusal) => Err(refusal),
    }
}

// The line about the first name in the list that is none of main's parameters.
fn nameless(alloc: Global, c: &Checked, list: &[u8]) -> Result<Option<Vec<u8>>, NoMemory>
    ensures { IfOk result (λ line. option_map (λ text. text.items) line ≡ nameless_in c.now.program c.now.names list.now) }
{
    let names = names_in(alloc, list)?;
    let params = main_params(alloc, c)?;
    match first_unknown(&params, &names) {
        Some(name) => Ok(Some(nameless_line(alloc, name)?)),
        None => Ok(None),
    }
}

fn nameless_line(alloc: Global, name: &[u8]) -> Result<Vec<u8>, NoMemory>
    ensures { IfOk result (λ line. line.items ≡ nameless_line name.now) }
{
    let mut line = Vec::new(alloc);
    line.extend_from_slice(b"main has no parameter ")?;
    line.extend_from_slice(name)?;
    line.extend_from_slice(b"\n")?;
    Ok(line)
}

// The lines, for a list of parameters.
fn blind_lines(
    alloc: Global,
    source: &[u8],
    accepted: &Accepted,
    listed: bool,
    list: &[u8],
) -> Result<Lines, NoMemory>
    ensures { IfOk result (λ l. GivesLabels accepted.now.checked.program accepted.now.checked.names listed list.now (shown l)) }
{
    let names = names_in(alloc, list)?;
    let params = main_params(alloc, &accepted.checked)?;
    let secret = are_secret(alloc, listed, &names, &params)?;
    match find_labels(alloc, &accepted.checked, &secret)? {
        Finding::Blind(_) => {
            let text = Vec::from_slice(alloc, BLIND)?;
            Ok(Lines { comes: true, text })
        }
        Finding::Depends(obstacle) => {
            let text = obstacle_lines(alloc, source, accepted, &obstacle)?;
            Ok(Lines { comes: false, text })
        }
    }
}
