//! The command `walk IN --order SEED --steps N [ARG..]`: a walk of a source's call machine.

ghost use Rattle.std.specs.Prelude.{◌≡◌, ◌≤◌, ◌++◌, length, map, OnOk, IfOk, IfErr, string_bytes};
ghost use Rattle.safl_tool.specs.Answers.{printed};
ghost use Rattle.safl_tool.specs.CommandTasks.{end_of_walk, GivesWalk, RefusesGiven};
ghost use Rattle.safl_word.specs.Limits.{source_max};
ghost use Rattle.safl_tool.specs.Printed.{walk_lines, short_line};
ghost use Rattle.safl_tool.specs.Refusals.{RefusesBy};
ghost use Rattle.safl_tool.specs.Walking.{Walks, WalksFrom};

use crate::answer::Lines;
use crate::arguments::{main_widths, read_arguments};
use crate::refusal::{Refusal, push};
use crate::source::check_source;
use safl_command::Turns;
use safl_core::{Machine, MachineErr, Walked, walk};
use safl_term::Checked;
use safl_word::{NoMemory, Raw, Word, push_decimal};
use std::alloc::Global;

/// What is printed of a walk of the call machine of the source `name`, or why it cannot walk.
pub fn walk_lines<'a>(
    alloc: Global,
    name: &'a str,
    source: &[u8],
    turns: Turns,
    args: &[String],
) -> Result<Lines, Refusal<'a>>
    requires { length source.now ≤ source_max }
    ensures gives { IfOk result (λ l. GivesWalk (map string_bytes args.now) turns.seed turns.steps source.now (printed l)) }
    ensures refused { IfErr result (RefusesBy (RefusesGiven name.now (map string_bytes args.now) source.now)) }
{
    let walked = walk_machine(alloc, name, source, turns, args)?;
    Ok(end_of_walk(alloc, turns.steps, walked)?)
}

// The outcome of a walk of the call machine of the source `name`.
fn walk_machine<'a>(
    alloc: Global,
    name: &'a str,
    source: &[u8],
    turns: Turns,
    args: &[String],
) -> Result<Walked, Refusal<'a>>
    requires { length source.now ≤ source_max }
    ensures walks { IfOk result (Walks source.now (map string_bytes args.now) turns.seed turns.steps) }
    ensures refused { IfErr result (RefusesBy (RefusesGiven name.now (map string_bytes args.now) source.now)) }
{
    let checked = check_source(alloc, name, source)?;
    let widths = main_widths(alloc, &checked)?;
    let words = read_arguments(alloc, &widths, args)?;
    Ok(walk_with(alloc, &checked, &words, turns.seed, turns.steps)?)
}

// The outcome of a walk of a new machine with these arguments.
fn walk_with(
    alloc: Global,
    checked: &Checked,
    words: &[Word],
    seed: u64,
    steps: u32,
) -> Result<Walked, NoMemory>
    requires { map (λ w. w.width) words.now ≡ checked.now.program.params checked.now.program.main }
    ensures { IfOk result (WalksFrom checked.now.program words.now seed steps) }
{
    match Machine::new(alloc, checked, words) {
        Ok(mut machine) => Ok(walk(&mut machine, seed, u64::from(steps))),
        Err(MachineErr::BadArgs) => unreachable!(),
        Err(MachineErr::NoMemory) => Err(NoMemory),
    }
}

// What is printed of the outcome of a walk.
fn end_of_walk(alloc: Global, steps: u32, walked: Walked) -> Result<Lines, NoMemory>
    ensures { IfOk result (λ l. printed l ≡ end_of_walk steps walked walked.result) }
{
    let mut text = Vec::new(alloc);
    let comes = match walked.result {
        Some(word) => {
            push_walked(&mut text, word, walked.events, walked.units)?;
            true
        }
        None => {
            push_short(&mut text, steps)?;
            false
        }
    };
    Ok(Lines { comes, text })
}

fn push_walked(text: &mut Vec<u8>, word: Word, events: u64, units: u32) -> Result<(), NoMemory>
    ensures { OnOk result (text.new.items ≡ text.old.items ++ walk_lines word.bits events units) }
{
    push(text, b"result ")?;
    push_decimal(word.bits(), text)?;
    push(text, b"\nevents ")?;
    push_decimal(Raw::from(events), text)?;
    push(text, b"\nunits ")?;
    push_decimal(Raw::from(units), text)?;
    push(text, b"\n")?;
    Ok(())
}

fn push_short(text: &mut Vec<u8>, steps: u32) -> Result<(), NoMemory>
    ensures { OnOk result (text.new.items ≡ text.old.items ++ short_line steps) }
{
    push(text, b"no result in ")?;
    push_decimal(Raw::from(steps), text)?;
    push(text, b" events\n")?;
    Ok(())
}
