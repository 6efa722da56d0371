//! The command `session IN SCRIPT --cycles L`: calls of a source's circuit, one for each line of a script.

ghost use Rattle.std.specs.Prelude.{◌≤◌, length, IfOk, IfErr};
ghost use Rattle.safl_session.specs.Laws.{AreCallsOf};
ghost use Rattle.safl_session.specs.Holding.{IsReady};
ghost use Rattle.safl_task.specs.Limits.{script_max};
ghost use Rattle.safl_word.specs.Limits.{source_max};
ghost use Rattle.safl_tool.specs.Answers.{GivesByPrinting};
ghost use Rattle.safl_tool.specs.CommandTasks.{RefusesSession};
ghost use Rattle.safl_tool.specs.ReadySession.{IsReadySession};
ghost use Rattle.safl_tool.specs.Refusals.{RefusesBy};
ghost use Rattle.safl_tool.specs.declared.answer.Answer.{Answer};

use crate::refusal::Refusal;
use crate::source::compile;
use safl_compiler::ordered;
use safl_io::{OutErr, Sink};
use safl_net::argument_widths;
use safl_session::{Script, ScriptErr, Session, read_script, send_transcript};
use safl_sim::Sim;
use safl_task::{Status, status_if};
use std::alloc::Global;

/// A session before its first call, and the calls to be made.
#[derive(Drop)]
pub struct ReadySession {
    pub session: Session,
    pub calls: Script,
}

/// The session of the circuit of the source `name` and the calls of a script, or why the source or the script is
/// refused.
pub fn ready_session<'a>(
    alloc: Global,
    name: &'a str,
    source: &[u8],
    script: &[u8],
) -> Result<ReadySession, Refusal<'a>>
    requires source { length source.now ≤ source_max }
    requires script { length script.now ≤ script_max }
    ensures opened { IfOk result (IsReadySession source.now script.now) }
    ensures refused { IfErr result (RefusesBy (RefusesSession name.now source.now script.now)) }
{
    let net = compile(alloc, name, source)?;
    let widths = argument_widths(alloc, &net)?;
    let calls = match read_script(alloc, script, &widths) {
        Ok(calls) => calls,
        Err(ScriptErr::Count(line, given)) => {
            return Err(Refusal::ScriptCount(line, widths.len(), given as usize));
        }
        Err(ScriptErr::Argument(line, place)) => {
            let width = widths[place as usize - 1];
            return Err(Refusal::ScriptArgument(line, place as usize, width));
        }
        Err(ScriptErr::NoMemory) => return Err(Refusal::NoMemory),
    };
    let ordered = ordered(alloc, net)?;
    let Ok(sim) = Sim::new(alloc, ordered) else {
        return Err(Refusal::NoMemory);
    };
    match Session::new(alloc, sim) {
        Ok(session) => Ok(ReadySession { session, calls }),
        Err(_) => Err(Refusal::NoMemory),
    }
}

/// Makes the calls of a session, each for at most `limit` cycles, and prints each reply as it comes.
pub fn converse<'a, O: Sink>(
    alloc: Global,
    opening: ReadySession,
    limit: u64,
    out: &mut O,
) -> Result<Status, Refusal<'a>>
    requires ready { IsReady opening.session }
    requires calls { AreCallsOf opening.session.net opening.calls }
    ensures { GivesByPrinting (Answer.Replies opening limit) (O.told out.old) (O.told out.new) result }
{
    let mut opening = opening;
    match send_transcript(alloc, &mut opening.session, &opening.calls, limit, out) {
        Ok(comes) => Ok(status_if(comes)),
        Err(OutErr::Failed) => Err(Refusal::Output),
        Err(OutErr::NoMemory) => Err(Refusal::NoMemory),
    }
}
