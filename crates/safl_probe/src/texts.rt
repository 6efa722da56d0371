//! The texts that a probe of any kind writes.

ghost use Rattle.std.specs.Prelude.{◌≡◌, ◌++◌, Some, None, OnOk, OnErr};
ghost use Rattle.safl_probe.specs.Watching.{shown_frame};
ghost use Rattle.safl_probe.specs.Texts.{opening_text, closing};
ghost use Rattle.safl_probe.specs.Entries.{watched_all, numbers, looked_all, last_of, frame_text_of};

use crate::entry::{Entry, Spot};
use crate::kind::TraceKind;
use crate::look::look;
use crate::starts_and_toggles::{push_starts, push_toggles, toggle};
use crate::text_pieces::{push, push_time};
use crate::vcd_text::{push_change, push_dump, push_header};
use safl_word::{NoMemory, Word};

// Each call makes its text in a buffer of its own first, so that it appends all of the text or nothing.

/// Appends the text of the beginning, or nothing if out of memory.
pub(crate) fn send_opening(
    text: &mut Vec<u8>,
    kind: TraceKind,
    entries: &[Entry],
    out: &mut Vec<u8>,
) -> Result<(), NoMemory>
    ensures added { OnOk result (out.new.items ≡ out.old.items ++ opening_text kind (watched_all entries.now)) }
    ensures same { OnErr result (out.new.items ≡ out.old.items) }
{
    text.clear();
    push_opening(text, kind, entries)?;
    push(out, text)
}

/// Looks at a frame and appends its text, or nothing if out of memory.
pub(crate) fn send_frame(
    text: &mut Vec<u8>,
    kind: TraceKind,
    t: u64,
    entries: &[Entry],
    spots: &mut [Spot],
    frame: &[Word],
    out: &mut Vec<u8>,
) -> Result<(), NoMemory>
    ensures added { OnOk result (out.new.items ≡ out.old.items ++ frame_text_of kind entries.now spots.old t (last_of t spots.old) (shown_frame frame.now)) }
    ensures now { OnOk result (spots.new ≡ looked_all (shown_frame frame.now) spots.old) }
    ensures same { OnErr result (out.new.items ≡ out.old.items) }
{
    text.clear();
    push_frame(text, kind, t, entries, spots, frame)?;
    push(out, text)
}

/// Appends the text of the end, or nothing if out of memory.
pub(crate) fn send_closing(
    text: &mut Vec<u8>,
    kind: TraceKind,
    turn: u64,
    out: &mut Vec<u8>,
) -> Result<(), NoMemory>
    ensures added { OnOk result (out.new.items ≡ out.old.items ++ closing kind turn) }
    ensures same { OnErr result (out.new.items ≡ out.old.items) }
{
    text.clear();
    push_closing(text, kind, turn)?;
    push(out, text)
}

fn push_frame(
    out: &mut Vec<u8>,
    kind: TraceKind,
    t: u64,
    entries: &[Entry],
    spots: &mut [Spot],
    frame: &[Word],
) -> Result<(), NoMemory>
    ensures added { OnOk result (out.new.items ≡ out.old.items ++ frame_text_of kind entries.now spots.old t (last_of t spots.old) (shown_frame frame.now)) }
    ensures now { OnOk result (spots.new ≡ looked_all (shown_frame frame.now) spots.old) }
{
    if t == 0 {
        push_first(out, kind, t, entries, spots, frame)
    } else {
        push_later(out, kind, t, entries, spots, frame)
    }
}

fn push_opening(out: &mut Vec<u8>, kind: TraceKind, entries: &[Entry]) -> Result<(), NoMemory>
    ensures { OnOk result (out.new.items ≡ out.old.items ++ opening_text kind (watched_all entries.now)) }
{
    match kind {
        TraceKind::Vcd => push_header(out, entries),
        TraceKind::Starts | TraceKind::Toggles | TraceKind::Silent => Ok(()),
    }
}

fn push_first(
    out: &mut Vec<u8>,
    kind: TraceKind,
    t: u64,
    entries: &[Entry],
    spots: &mut [Spot],
    frame: &[Word],
) -> Result<(), NoMemory>
    ensures added { OnOk result (out.new.items ≡ out.old.items ++ frame_text_of kind entries.now spots.old t None (shown_frame frame.now)) }
    ensures now { OnOk result (spots.new ≡ looked_all (shown_frame frame.now) spots.old) }
{
    look(spots, frame);
    match kind {
        TraceKind::Vcd => push_dump(out, t, spots),
        TraceKind::Starts => push_starts(out, t, entries, spots),
        TraceKind::Toggles => push_toggles(out, t, 0),
        TraceKind::Silent => Ok(()),
    }
}

fn push_later(
    out: &mut Vec<u8>,
    kind: TraceKind,
    t: u64,
    entries: &[Entry],
    spots: &mut [Spot],
    frame: &[Word],
) -> Result<(), NoMemory>
    ensures added { OnOk result (out.new.items ≡ out.old.items ++ frame_text_of kind entries.now spots.old t (Some (numbers spots.old))
        (shown_frame frame.now)) }
    ensures now { OnOk result (spots.new ≡ looked_all (shown_frame frame.now) spots.old) }
{
    match kind {
        TraceKind::Vcd => push_change(out, t, spots, frame),
        TraceKind::Starts => {
            look(spots, frame);
            push_starts(out, t, entries, spots)
        }
        TraceKind::Toggles => {
            let count = toggle(spots, frame);
            push_toggles(out, t, count)
        }
        TraceKind::Silent => {
            look(spots, frame);
            Ok(())
        }
    }
}

fn push_closing(out: &mut Vec<u8>, kind: TraceKind, turn: u64) -> Result<(), NoMemory>
    ensures { OnOk result (out.new.items ≡ out.old.items ++ closing kind turn) }
{
    match kind {
        TraceKind::Vcd => push_time(out, turn),
        TraceKind::Starts | TraceKind::Toggles | TraceKind::Silent => Ok(()),
    }
}
