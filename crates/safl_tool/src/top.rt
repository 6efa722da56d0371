//! The program's main call.

ghost use Rattle.std.specs.Prelude.{map, option_map, string_bytes};
ghost use Rattle.safl_command.specs.Commands.{command_of, shown_command};
ghost use Rattle.safl_probe.specs.Asked.{Unbegun};
ghost use Rattle.safl_tool.specs.Changes.{AttendedOn, AttendsOn, DoesOn, EndsOn, FollowsOn, SparesOn};
ghost use Rattle.safl_tool.specs.Headline.{Builds};
ghost use Rattle.safl_tool.specs.Promises.{Checks, SimPrints, SessionPrints, Converts};
ghost use Rattle.safl_tool.specs.Refusals.{SendsLine, SendsRefusal};

use crate::refusal::Refusal;
use crate::work::perform;
use safl_aiger::laws::no_fault_law;
use safl_command::{Command, read_words};
use safl_compiler::laws::{not_both_law, one_program_law};
use safl_io::{OutErr, Shelf, Sink};
use safl_probe::Probe;
use safl_session::laws as sessions;
use safl_task::Status;
use safl_tree::laws as trees;
use safl_verilog::laws as verilog;
use safl_word::NoMemory;
use std::alloc::Global;

/// Does what the words of a command line ask for, and returns the status with which the program ends.
///
/// `out` gets what a command prints, and `err` the line of a refusal. The probes are for the traces of `sim`: the first
/// probe of a kind writes the trace of that kind, if a file is given for it.
pub fn run<S: Shelf, O: Sink, E: Sink>(
    alloc: Global,
    words: &[String],
    shelf: &mut S,
    out: &mut O,
    err: &mut E,
    probes: &mut Vec<Box<dyn Probe>>,
) -> Status
    // No probe was begun before.
    requires { Unbegun state probes.old.items }

    // Where `build IN OUT` ends with Ok, OUT reads as a netlist that is correct for the program whose source IN held.
    ensures headline { Builds words.now S.told shelf.old shelf.new result }
    // Where `check` ends with Ok, IN held the source of a program, with the printed numbers of functions and call sites.
    ensures check { Checks words.now S.told shelf.old O.told out.old out.new result }
    // Where `sim` ends with Ok, main of the program whose source IN held gives the printed value, in the printed cycle.
    ensures sim { SimPrints words.now S.told shelf.old O.told out.old out.new result }
    // Where `session` ends with Ok, main gives the printed values from the arguments on the lines of SCRIPT, in the printed cycles.
    ensures session { SessionPrints words.now S.told shelf.old O.told out.old out.new result }
    // Where `aig` ends with Ok, OUT is the text of a bit-level circuit of the netlist that FILE's text reads as.
    ensures aig { Converts words.now S.told shelf.old shelf.new result }
    // The cause of each status, what was given, and what `err` got.
    ensures ends { EndsOn words.now S.told shelf.old shelf.new O.told out.old out.new E.told err.old err.new state probes.old probes.new result }
    // What holds of every command.
    ensures follows { FollowsOn words.now S.told shelf.old shelf.new O.told out.old out.new state probes.old probes.new result }
{
    one_program_law();
    not_both_law();
    trees::one_program_law();
    verilog::one_netlist_law();
    verilog::not_both_law();
    no_fault_law();
    sessions::script_law();
    sessions::session_law();
    dispatch(alloc, words, shelf, out, err, probes)
}

// Does what the words ask for. If it is refused, sends the line of the refusal.
fn dispatch<S: Shelf, O: Sink, E: Sink>(
    alloc: Global,
    words: &[String],
    shelf: &mut S,
    out: &mut O,
    err: &mut E,
    probes: &mut Vec<Box<dyn Probe>>,
) -> Status
    requires { Unbegun state probes.old.items }
    ensures ends { EndsOn words.now S.told shelf.old shelf.new O.told out.old out.new E.told err.old err.new state probes.old probes.new result }
    ensures spares { SparesOn (command_of (map string_bytes words.now)) S.told shelf.old shelf.new O.told out.old out.new state probes.old probes.new }
    ensures attended { AttendedOn words.now S.told shelf.old state probes.old probes.new result }
{
    let command = match read_words(alloc, words) {
        Ok(command) => command,
        Err(NoMemory) => return refuse(alloc, err, Refusal::NoMemory),
    };
    match obey(alloc, &command, shelf, out, probes) {
        Ok(status) => status,
        Err(refusal) => refuse(alloc, err, refusal),
    }
}

// Does what the words ask for, if they form a command.
fn obey<'a, S: Shelf, O: Sink>(
    alloc: Global,
    command: &'a Option<Command>,
    shelf: &mut S,
    out: &mut O,
    probes: &mut Vec<Box<dyn Probe>>,
) -> Result<Status, Refusal<'a>>
    requires { Unbegun state probes.old.items }
    ensures does { DoesOn (option_map shown_command command.now) S.told shelf.old shelf.new O.told out.old out.new state probes.old probes.new result }
    ensures spares { SparesOn (option_map shown_command command.now) S.told shelf.old shelf.new O.told out.old out.new state probes.old probes.new }
    ensures attends { AttendsOn (option_map shown_command command.now) S.told shelf.old state probes.old probes.new result }
{
    match command {
        Some(command) => perform(alloc, command, shelf, out, probes),
        None => Err(Refusal::Usage),
    }
}

/// Sends the line of a refusal. Returns its status.
pub fn refuse<E: Sink>(alloc: Global, err: &mut E, refusal: Refusal<'_>) -> Status
    ensures { SendsRefusal refusal.entry (E.told err.old) (E.told err.new) result }
{
    let status = refusal.status();
    match refusal.line(alloc) {
        Ok(line) => tell(err, &line, status),
        Err(NoMemory) => tell(err, b"out of memory\n", Status::NoMemory),
    }
}

/// Sends a line. Returns `status`, even if the sink fails.
pub fn tell<E: Sink>(err: &mut E, line: &[u8], status: Status) -> Status
    ensures { SendsLine status line.now (E.told err.old) (E.told err.new) result }
{
    match err.put(line) {
        Ok(()) => status,
        Err(OutErr::Failed) => status,
        Err(OutErr::NoMemory) => Status::NoMemory,
    }
}
