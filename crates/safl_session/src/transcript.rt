//! Running a session and sending its transcript, line by line.

ghost use Rattle.std.specs.Prelude.{◌≡◌, OnOk, OnErr, IfOk, IsErrOf};
ghost use Rattle.safl_io.specs.Counts.{Rose};
ghost use Rattle.safl_session.specs.Laws.{AreCallsOf};
ghost use Rattle.safl_session.specs.Holding.{IsReady, IsHeld, IsBegun};

use crate::script::Script;
use crate::session::Session;
use crate::transcript_line::{Line, send_line};
use safl_io::{OutErr, Sink};
use std::alloc::Global;

/// Makes the calls of a script one after another, each for at most `limit` cycles, and sends a line for each reply as
/// it comes; at the end a line with the number of calls. If a call has no reply, the last line says so instead, and no
/// further call is made. The result says whether each call had a reply.
///
/// After an error a prefix of the whole transcript was sent.
pub fn send_transcript<O: Sink>(
    alloc: Global,
    session: &mut Session,
    script: &Script,
    limit: u64,
    out: &mut O,
) -> Result<bool, OutErr>
    requires ready { IsReady session.old }
    requires calls { AreCallsOf session.old.net script.now }
    ensures held { IfOk result (IsHeld session.old script.now limit (O.told out.old).sent (O.told out.new).sent) }
    ensures begun { OnErr result (IsBegun session.old script.now limit (O.told out.old).sent (O.told out.new).sent) }
    ensures failed { IsErrOf result OutErr.Failed → Rose (O.told out.old).faults (O.told out.new).faults }
    ensures quiet { OnOk result ((O.told out.new).faults ≡ (O.told out.old).faults) }
{
    let mut text = Vec::new(alloc);
    'calls: for call in 0..script.len() {
        let Some(reply) = session.call(script.words(call), limit) else {
            send_line(&mut text, Line::Late(limit), out)?;
            return Ok(false);
        };
        send_line(&mut text, Line::Replied(reply), out)?;
    }
    send_line(&mut text, Line::Counted(script.len()), out)?;
    Ok(true)
}
