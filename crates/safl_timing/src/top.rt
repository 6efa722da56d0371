//! The program's main call.

ghost use Rattle.std.specs.Prelude.{◌≡◌, ◌≤◌, length, IfOk, IfErr};
ghost use Rattle.safl_task.specs.Inputs.{shown_contents};
ghost use Rattle.safl_timing.specs.Endings.{BlindOn, DoesOn, EndsOn, PrintsBy, SendsStop, TimesOn, first_of};
ghost use Rattle.safl_timing.specs.Requests.{shown_request};
ghost use Rattle.safl_timing.specs.Secrets.{StopsAs};
ghost use Rattle.safl_timing.specs.Tasks.{Gives, Refuses, shown};
ghost use Rattle.safl_word.specs.Limits.{source_max};

use crate::blind::blind_source;
use crate::request::{Asked, Request, request_of};
use crate::stop::Stop;
use crate::timing::{Lines, time_source};
use safl_io::{OutErr, Shelf, Sink};
use safl_task::{Input, Status, read_inputs, status_if};
use safl_tool::refusal::Refusal;
use safl_tool::top::{refuse, tell};
use std::alloc::Global;

// The usage line.
const USAGE: &[u8] =
    b"usage: safl-time IN [ARG..] | safl-time IN --secret NAME,NAME | safl-time IN --public NAME,NAME\n";

/// Does what the words of a command line ask for, and returns the status with which the program ends.
///
/// `out` gets what is printed, and `err` the line of a refusal.
pub fn run<S: Shelf, O: Sink, E: Sink>(
    alloc: Global,
    words: &[String],
    shelf: &mut S,
    out: &mut O,
    err: &mut E,
) -> Status
    // Where it ends with Ok, the first word names the file of a program's source, and the printed figures are those of main on the other words.
    ensures times { TimesOn words.now S.told shelf.old O.told out.old out.new result }
    // Where it was asked about secret parameters and ends with Ok, no secret one decides about the time of that program, and this is printed.
    ensures blind { BlindOn words.now S.told shelf.old O.told out.old out.new result }
    // The cause of each status, what was printed, and what `err` got.
    ensures ends { EndsOn words.now S.told shelf.old shelf.new O.told out.old out.new E.told err.old err.new result }
{
    match request_of(words) {
        Some(request) => match obey(alloc, request, shelf, out) {
            Ok(status) => status,
            Err(stop) => stopped(alloc, err, stop),
        },
        None => tell(err, USAGE, Status::Usage),
    }
}

// Sends the line that says why a call ends without its lines. Returns its status.
fn stopped<E: Sink>(alloc: Global, err: &mut E, stop: Stop<'_>) -> Status
    ensures { SendsStop stop.entry (E.told err.old) (E.told err.new) result }
{
    match stop {
        Stop::Refused(refusal) => refuse(alloc, err, refusal),
        Stop::Nameless(line) => tell(err, &line, Status::BadArgs),
    }
}

// Does what is asked for.
fn obey<'a, S: Shelf, O: Sink>(
    alloc: Global,
    request: Request<'a>,
    shelf: &mut S,
    out: &mut O,
) -> Result<Status, Stop<'a>>
    ensures { DoesOn (shown_request request.entry) S.told shelf.old shelf.new O.told out.old out.new result }
{
    let contents = match read_inputs(alloc, shelf, &[Input::source(request.input)]) {
        Ok(contents) => contents,
        Err(unread) => return Err(Stop::Refused(Refusal::of_unread(unread))),
    };
    match answer(alloc, request, first(&contents)) {
        Ok(lines) => print(out, lines),
        Err(stop) => Err(stop),
    }
}

// The lines that answer a request by a source, or why it is refused.
fn answer<'a>(alloc: Global, request: Request<'a>, source: &[u8]) -> Result<Lines, Stop<'a>>
    requires { length source.now ≤ source_max }
    ensures gives { IfOk result (λ l. Gives (shown_request request.entry).asked source.now (shown l)) }
    ensures refused { IfErr result (StopsAs (Refuses request.entry.input.now (shown_request request.entry).asked source.now)) }
{
    match request.asked {
        Asked::Time(args) => match time_source(alloc, request.input, source, args) {
            Ok(lines) => Ok(lines),
            Err(refusal) => Err(Stop::Refused(refusal)),
        },
        Asked::Blind(listed, list) => {
            blind_source(alloc, request.input, source, listed, list.as_bytes())
        }
    }
}

// The content of the first file. Empty if there is none.
fn first(contents: &[Vec<u8>]) -> &[u8]
    ensures { result.now ≡ first_of (shown_contents contents.now) }
{
    match contents.first() {
        Some(bytes) => bytes.as_slice(),
        None => &[],
    }
}

// Prints lines. The status says whether they have figures.
fn print<'a, O: Sink>(out: &mut O, lines: Lines) -> Result<Status, Stop<'a>>
    ensures { PrintsBy lines (O.told out.old) (O.told out.new) result }
{
    match out.put(&lines.text) {
        Ok(()) => Ok(status_if(lines.comes)),
        Err(OutErr::Failed) => Err(Stop::Refused(Refusal::Output)),
        Err(OutErr::NoMemory) => Err(Stop::Refused(Refusal::NoMemory)),
    }
}
