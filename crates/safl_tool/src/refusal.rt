//! Refusals: why a command ends without its result, and the line that says so.

ghost use Rattle.std.specs.Prelude.{◌≡◌, ◌++◌, IfOk, OnOk, codes};
ghost use Rattle.safl_task.specs.Lines.{long_line};
ghost use Rattle.safl_tool.specs.Lines.{line_at, column_at, count_line, argument_line, numbered_line, placed_line, site_line, probe_line};
ghost use Rattle.safl_tool.specs.Refusals.{status_of, line_of, IsOfUnread};
ghost use Rattle.safl_tool.specs.declared.refusal.Refusal.TheVariants as refusals;
ghost use Rattle.safl_word.specs.Faults.{fault_text};

use crate::verilog_lines::{loop_line, verilog_line};
use safl_aig::{AigRule, fault_line, register_line, weight_line};
use safl_task::{Status, Unread};
use safl_verilog::VFault;
use safl_word::{Fault, NoMemory, Raw, push_decimal, push_fault};
use std::alloc::{AllocError, Global};

// The usage line. It is fixed, and names neither every command nor the options.
const USAGE: &[u8] =
    b"usage: safl check IN | build IN OUT | sim IN --cycles L [ARG..] | run FILE --cycles L [ARG..] | walk IN --order SEED --steps N [ARG..] | report IN | gen SEED COUNT | bench SEED COUNT --cycles L\n";

/// Why a command ends without its result.
#[derive(Drop)]
pub enum Refusal<'a> {
    /// The words do not form a command.
    Usage,
    /// The source in this file has this fault, at this line and column, both counted from 1.
    Source(&'a str, Fault, usize, usize),
    /// The file of this name could not be read.
    Read(&'a str),
    /// The file of this name is longer than this limit in bytes.
    TooLong(&'a str, u64),
    /// The file of this name could not be written.
    Write(&'a str),
    /// What the command prints could not be sent.
    Output,
    /// The Verilog file of this name has this fault, at this line and column, both counted from 1.
    Verilog(&'a str, VFault, usize, usize),
    /// The netlist of the Verilog file of this name has a combinational loop of these wires.
    Loop(&'a str, Vec<String>),
    /// Main has this many parameters, and is given this many arguments.
    Count(usize, usize),
    /// The argument of this number, counted from 1, is no number of this width in bits.
    Argument(usize, u8),
    /// A line of a script, counted from 1, has a wrong number of words: main has this many parameters, and the line this
    /// many words.
    ScriptCount(u32, usize, usize),
    /// In a line of a script, a word is no number of its width: the line, the word, both counted from 1, and the width
    /// in bits.
    ScriptArgument(u32, usize, u8),
    /// The site of this number cannot be reshaped, for this reason.
    Site(u64, &'static str),
    /// A line of the AIGER file of this name breaks this rule. Lines are counted from 1.
    Aig(&'a str, u32, AigRule),
    /// The netlist has this weight, which is above the limit.
    Heavy(u64),
    /// The register of this name does not reset to 0.
    Register(String),
    /// A probe of this kind failed.
    Probe(u8),
    NoMemory,
}

impl<'a> From<NoMemory> for Refusal<'a> {
    ghost from_gives = { λ _ r. r ≡ refusals.NoMemory };

    fn from(_: NoMemory) -> Self {
        Refusal::NoMemory
    }
}

impl<'a> From<AllocError> for Refusal<'a> {
    ghost from_gives = { λ _ r. r ≡ refusals.NoMemory };

    fn from(_: AllocError) -> Self {
        Refusal::NoMemory
    }
}

impl<'a> Refusal<'a> {
    /// The refusal of a command whose file was not read.
    pub fn of_unread(unread: Unread<'a>) -> Self
        ensures { IsOfUnread unread.entry result }
    {
        match unread {
            Unread::Failed(name) => Refusal::Read(name),
            Unread::TooLong(name, limit) => Refusal::TooLong(name, limit),
            Unread::NoMemory => Refusal::NoMemory,
        }
    }

    /// The exit status of this refusal.
    pub fn status(&self) -> Status
        ensures { result ≡ status_of self.now }
    {
        match self {
            Refusal::Usage => Status::Usage,
            Refusal::Source(_, _, _, _) => Status::SourceRefused,
            Refusal::Read(_) => Status::ReadFault,
            Refusal::TooLong(_, _) => Status::TooLong,
            Refusal::Write(_) => Status::WriteFault,
            Refusal::Output => Status::WriteFault,
            Refusal::Verilog(_, _, _, _) => Status::VerilogRefused,
            Refusal::Loop(_, _) => Status::VerilogRefused,
            Refusal::Count(_, _) => Status::BadArgs,
            Refusal::Argument(_, _) => Status::BadArgs,
            Refusal::ScriptCount(_, _, _) => Status::BadArgs,
            Refusal::ScriptArgument(_, _, _) => Status::BadArgs,
            Refusal::Site(_, _) => Status::ReshapeRefused,
            Refusal::Aig(_, _, _) => Status::AigRefused,
            Refusal::Heavy(_) => Status::CircuitTooLarge,
            Refusal::Register(_) => Status::NotZero,
            Refusal::Probe(_) => Status::ProbeFault,
            Refusal::NoMemory => Status::NoMemory,
        }
    }

    /// The line that reports this refusal, with its line feed.
    pub fn line(self, alloc: Global) -> Result<Vec<u8>, NoMemory>
        ensures { IfOk result (λ text. text.items ≡ line_of self.entry) }
    {
        match self {
            Refusal::Usage => text_of(alloc, USAGE),
            Refusal::Source(name, fault, line, column) => {
                source_line(alloc, name, fault, line, column)
            }
            Refusal::Read(name) => name_line(alloc, b"cannot read ", name),
            Refusal::TooLong(name, limit) => long_line(alloc, name, limit),
            Refusal::Write(name) => name_line(alloc, b"cannot write ", name),
            Refusal::Output => text_of(alloc, b"cannot write output\n"),
            Refusal::Verilog(name, fault, line, column) => {
                verilog_line(alloc, name, fault, line, column)
            }
            Refusal::Loop(name, wires) => loop_line(alloc, name, &wires),
            Refusal::Count(params, given) => count_line(alloc, params, given),
            Refusal::Argument(index, width) => argument_line(alloc, index, width),
            Refusal::ScriptCount(line, params, given) => {
                numbered_line(alloc, line, &count_line(alloc, params, given)?)
            }
            Refusal::ScriptArgument(line, index, width) => {
                numbered_line(alloc, line, &argument_line(alloc, index, width)?)
            }
            Refusal::Site(site, text) => site_line(alloc, site, text),
            Refusal::Aig(name, line, rule) => fault_line(alloc, name, line, rule),
            Refusal::Heavy(weight) => weight_line(alloc, weight),
            Refusal::Register(name) => register_line(alloc, &name),
            Refusal::Probe(kind) => probe_line(alloc, kind),
            Refusal::NoMemory => text_of(alloc, b"out of memory\n"),
        }
    }
}

fn text_of(alloc: Global, text: &[u8]) -> Result<Vec<u8>, NoMemory>
    ensures { IfOk result (λ line. line.items ≡ text.now) }
{
    Ok(Vec::from_slice(alloc, text)?)
}

fn source_line(
    alloc: Global,
    name: &str,
    fault: Fault,
    line: usize,
    column: usize,
) -> Result<Vec<u8>, NoMemory>
    ensures { IfOk result (λ text. text.items ≡ placed_line name.now line column (fault_text fault)) }
{
    let mut out = Vec::new(alloc);
    push(&mut out, name.as_bytes())?;
    push(&mut out, b":")?;
    push_decimal(line as Raw, &mut out)?;
    push(&mut out, b":")?;
    push_decimal(column as Raw, &mut out)?;
    push(&mut out, b": ")?;
    push_fault(fault, &mut out)?;
    push(&mut out, b"\n")?;
    Ok(out)
}

// A line that ends with a name.
fn name_line(alloc: Global, start: &[u8], name: &str) -> Result<Vec<u8>, NoMemory>
    ensures { IfOk result (λ text. text.items ≡ start.now ++ name.now ++ codes "\n") }
{
    let mut out = Vec::new(alloc);
    push(&mut out, start)?;
    push(&mut out, name.as_bytes())?;
    push(&mut out, b"\n")?;
    Ok(out)
}

fn long_line(alloc: Global, name: &str, limit: u64) -> Result<Vec<u8>, NoMemory>
    ensures { IfOk result (λ text. text.items ≡ long_line name.now limit) }
{
    let mut out = Vec::new(alloc);
    push(&mut out, name.as_bytes())?;
    push(&mut out, b" is longer than ")?;
    push_decimal(Raw::from(limit), &mut out)?;
    push(&mut out, b" bytes\n")?;
    Ok(out)
}

fn count_line(alloc: Global, params: usize, given: usize) -> Result<Vec<u8>, NoMemory>
    ensures { IfOk result (λ text. text.items ≡ count_line params given) }
{
    let mut out = Vec::new(alloc);
    push(&mut out, b"main takes ")?;
    push_decimal(params as Raw, &mut out)?;
    push(&mut out, b" arguments, ")?;
    push_decimal(given as Raw, &mut out)?;
    push(&mut out, b" given\n")?;
    Ok(out)
}

fn argument_line(alloc: Global, index: usize, width: u8) -> Result<Vec<u8>, NoMemory>
    ensures { IfOk result (λ text. text.items ≡ argument_line index width) }
{
    let mut out = Vec::new(alloc);
    push(&mut out, b"argument ")?;
    push_decimal(index as Raw, &mut out)?;
    push(&mut out, b" is no number of ")?;
    push_decimal(Raw::from(width), &mut out)?;
    push(&mut out, b" bits\n")?;
    Ok(out)
}

// A text about a line of a script, after the number of that line.
fn numbered_line(alloc: Global, number: u32, text: &[u8]) -> Result<Vec<u8>, NoMemory>
    ensures { IfOk result (λ line. line.items ≡ numbered_line number text.now) }
{
    let mut out = Vec::new(alloc);
    push(&mut out, b"line ")?;
    push_decimal(Raw::from(number), &mut out)?;
    push(&mut out, b": ")?;
    push(&mut out, text)?;
    Ok(out)
}

fn site_line(alloc: Global, site: u64, text: &str) -> Result<Vec<u8>, NoMemory>
    ensures { IfOk result (λ line. line.items ≡ site_line site text.now) }
{
    let mut out = Vec::new(alloc);
    push(&mut out, b"site ")?;
    push_decimal(Raw::from(site), &mut out)?;
    push(&mut out, b": ")?;
    push(&mut out, text.as_bytes())?;
    push(&mut out, b"\n")?;
    Ok(out)
}

fn probe_line(alloc: Global, kind: u8) -> Result<Vec<u8>, NoMemory>
    ensures { IfOk result (λ text. text.items ≡ probe_line kind) }
{
    let mut out = Vec::new(alloc);
    push(&mut out, b"probe ")?;
    push_decimal(Raw::from(kind), &mut out)?;
    push(&mut out, b" failed\n")?;
    Ok(out)
}

/// The line of a place in a source, counted from 1. A place past the end of the source counts as its end.
pub fn line_number(source: &[u8], place: usize) -> usize
    ensures { result ≡ line_at source.now place }
{
    let before = &source[..place.min(source.len())];
    before.iter().filter(|c| **c == b'\n').count() + 1
}

/// The column of a place in a source, in bytes, counted from 1. A place past the end of the source counts as its end.
pub fn column_number(source: &[u8], place: usize) -> usize
    ensures { result ≡ column_at source.now place }
{
    let before = &source[..place.min(source.len())];
    let mut column = 1;
    for c in before {
        column = if *c == b'\n' { 1 } else { column + 1 };
    }
    column
}

/// Appends a piece.
pub fn push(out: &mut Vec<u8>, piece: &[u8]) -> Result<(), NoMemory>
    ensures { OnOk result (out.new.items ≡ out.old.items ++ piece.now) }
{
    out.extend_from_slice(piece)?;
    Ok(())
}
