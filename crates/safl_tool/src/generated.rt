//! The commands `gen SEED COUNT` and `bench SEED COUNT --cycles L`: a generated source, and a run of its circuit.

ghost use Rattle.std.specs.Prelude.{◌≡◌, ◌≤◌, IfOk, IfErr, codes, length, map, string_bytes, decimal, true};
ghost use Rattle.safl_word.specs.Limits.{source_max};
ghost use Rattle.safl_task.specs.Tasks.{only_prints};
ghost use Rattle.safl_tool.specs.Answers.{printed};
ghost use Rattle.safl_tool.specs.CommandTasks.{GivesMeasure, RefusesGiven};
ghost use Rattle.safl_tool.specs.Refusals.{RefusesBy};
ghost use Rattle.safl_tool.specs.Reporting.{HasHead, made_args, made_source};

use crate::answer::Lines;
use crate::check::push_program;
use crate::refusal::{Refusal, push};
use crate::simulate::{push_outcome, run_circuit};
use crate::source::plan_source;
use safl_command::Count;
use safl_compiler::planned_circuit;
use safl_gen::{GenErr, generate};
use safl_net::Net;
use safl_report::summary;
use safl_sites::Planned;
use safl_word::NoMemory;
use std::alloc::{AllocError, Global};

/// The source of `count` functions and main for a seed.
pub fn gen_lines<'a>(alloc: Global, seed: u64, count: Count) -> Result<Lines, Refusal<'a>>
    ensures gives { IfOk result (λ l. printed l ≡ only_prints true (made_source seed count.functions)) }
    ensures refused { IfErr result (RefusesBy (λ s line. ⊥)) }
{
    let text = source_of(alloc, seed, count)?;
    Ok(Lines { comes: true, text })
}

/// What `bench` prints of the source for a seed and of a run of its circuit.
pub fn bench_lines<'a>(
    alloc: Global,
    seed: u64,
    count: Count,
    limit: u64,
) -> Result<Lines, Refusal<'a>>
    ensures gives { IfOk result (λ l. GivesMeasure (made_args seed count.functions) limit (made_source seed count.functions) (printed l)) }
    ensures refused { IfErr result (RefusesBy (RefusesGiven (codes "bench") (made_args seed count.functions) (made_source seed count.functions))) }
{
    let source = source_of(alloc, seed, count)?;
    let args = args_of(alloc, seed, count.functions)?;
    measure(alloc, "bench", &source, limit, &args)
}

fn source_of(alloc: Global, seed: u64, count: Count) -> Result<Vec<u8>, NoMemory>
    ensures made { IfOk result (λ text. text.items ≡ made_source seed count.functions) }
    ensures short { IfOk result (λ text. length text.items ≤ source_max) }
{
    match generate(alloc, seed, count.functions) {
        Ok(text) => Ok(text),
        Err(GenErr::Count) => unreachable!(),
        Err(GenErr::NoMemory) => Err(NoMemory),
    }
}

// The arguments of main: the low 16 bits of the seed, and the number of functions.
fn args_of(alloc: Global, seed: u64, count: u32) -> Result<Vec<String>, AllocError>
    ensures { IfOk result (λ args. map string_bytes args.items ≡ made_args seed count) }
{
    let mut args = Vec::new(alloc);
    args.push(numeral(alloc, seed % 65_536)?)?;
    args.push(numeral(alloc, u64::from(count))?)?;
    Ok(args)
}

fn numeral(alloc: Global, number: u64) -> Result<String, AllocError>
    ensures { IfOk result (λ text. string_bytes text ≡ decimal number) }
{
    let mut text = String::new(alloc);
    write!(text, "{number}")?;
    Ok(text)
}

// What is printed of the plan of a source and of a run of its circuit, or why the source is refused.
fn measure<'a>(
    alloc: Global,
    name: &'a str,
    source: &[u8],
    limit: u64,
    args: &[String],
) -> Result<Lines, Refusal<'a>>
    requires { length source.now ≤ source_max }
    ensures gives { IfOk result (λ l. GivesMeasure (map string_bytes args.now) limit source.now (printed l)) }
    ensures refused { IfErr result (RefusesBy (RefusesGiven name.now (map string_bytes args.now) source.now)) }
{
    let planned = plan_source(alloc, name, source)?;
    let net = planned_circuit(alloc, &planned)?;
    let mut text = head_of(alloc, &planned, &net)?;
    let done = run_circuit(alloc, net, limit, args)?;
    let comes = push_outcome(&mut text, limit, done)?;
    Ok(Lines { comes, text })
}

// The numbers of a program, and the summary of its plan and of its netlist.
fn head_of(alloc: Global, p: &Planned, net: &Net) -> Result<Vec<u8>, NoMemory>
    ensures { IfOk result (λ text. HasHead p.now.checked.program net.now text.items) }
{
    let checked = p.checked();
    let mut text = Vec::new(alloc);
    push_program(&mut text, checked.functions(), checked.sites())?;
    let rest = summary(alloc, p, net)?;
    push(&mut text, &rest)?;
    Ok(text)
}
