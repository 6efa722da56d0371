//! The lines of a transcript.

ghost use Rattle.std.specs.Prelude.{◌≡◌, ◌++◌, OnOk, OnErr, IsErrOf};
ghost use Rattle.safl_io.specs.Counts.{Rose};
ghost use Rattle.safl_io.specs.Sink.{Sends, SendsPart};
ghost use Rattle.safl_io.specs.Told.{TellsOn};
ghost use Rattle.safl_session.specs.Transcripts.{reply_line, calls_line, late_line, line_text};

use crate::session::Reply;
use safl_io::{OutErr, Sink};
use safl_word::{NoMemory, Raw, push_decimal};

/// A line of a transcript.
#[derive(Clone, Copy)]
pub enum Line {
    /// A call had this reply.
    Replied(Reply),
    /// This many calls were made, and each had a reply.
    Counted(usize),
    /// A call had no reply within this many cycles.
    Late(u64),
}

/// Sends a line. The line is made in `text`, whose room is used again for the next one.
pub fn send_line<O: Sink>(text: &mut Vec<u8>, line: Line, out: &mut O) -> Result<(), OutErr>
    ensures sent { OnOk result (TellsOn (Sends (line_text line)) (O.told out.old).sent (O.told out.new).sent) }
    ensures part { OnErr result (TellsOn (SendsPart (line_text line)) (O.told out.old).sent (O.told out.new).sent) }
    ensures failed { IsErrOf result OutErr.Failed → Rose (O.told out.old).faults (O.told out.new).faults }
    ensures quiet { OnOk result ((O.told out.new).faults ≡ (O.told out.old).faults) }
{
    match write_line(text, line) {
        Ok(()) => out.put(text),
        Err(NoMemory) => Err(OutErr::NoMemory),
    }
}

fn write_line(text: &mut Vec<u8>, line: Line) -> Result<(), NoMemory>
    ensures { OnOk result (text.new.items ≡ line_text line) }
{
    text.clear();
    match line {
        Line::Replied(reply) => push_reply(text, reply),
        Line::Counted(count) => push_count(text, count),
        Line::Late(limit) => push_late(text, limit),
    }
}

fn push_reply(text: &mut Vec<u8>, reply: Reply) -> Result<(), NoMemory>
    ensures { OnOk result (text.new.items ≡ text.old.items ++ reply_line reply) }
{
    push_decimal(reply.result.bits(), text)?;
    text.extend_from_slice(b" ")?;
    push_decimal(Raw::from(reply.cycle), text)?;
    text.extend_from_slice(b"\n")?;
    Ok(())
}

fn push_count(text: &mut Vec<u8>, count: usize) -> Result<(), NoMemory>
    ensures { OnOk result (text.new.items ≡ text.old.items ++ calls_line count) }
{
    text.extend_from_slice(b"calls ")?;
    push_decimal(count as Raw, text)?;
    text.extend_from_slice(b"\n")?;
    Ok(())
}

/// Appends the line that says that no result came within `limit` cycles.
pub fn push_late(text: &mut Vec<u8>, limit: u64) -> Result<(), NoMemory>
    ensures { OnOk result (text.new.items ≡ text.old.items ++ late_line limit) }
{
    text.extend_from_slice(b"no result in ")?;
    push_decimal(Raw::from(limit), text)?;
    text.extend_from_slice(b" cycles\n")?;
    Ok(())
}
