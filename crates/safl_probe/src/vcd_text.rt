//! The text of a value change dump.

ghost use Rattle.std.specs.Prelude.{◌≡◌, ◌++◌, OnOk};
ghost use Rattle.safl_probe.specs.Watching.{shown_frame};
ghost use Rattle.safl_probe.specs.Texts.{header, variable, variable_texts, value_text, value_texts, dump, timed};
ghost use Rattle.safl_probe.specs.Entries.{watched_in, watched_all, nameless, numbers, looked, looked_all, changed_in, changes_in};

use crate::entry::{Entry, Spot};
use crate::look::number_at;
use crate::text_pieces::{push, push_code, push_time, push_value};
use safl_word::{NoMemory, Raw, Word, push_decimal};

/// Appends the header of a dump.
pub(crate) fn push_header(out: &mut Vec<u8>, entries: &[Entry]) -> Result<(), NoMemory>
    ensures { OnOk result (out.new.items ≡ out.old.items ++ header (watched_all entries.now)) }
{
    push(out, b"$timescale 1 ns $end\n$scope module safl $end\n")?;
    push_variables(out, entries)?;
    push(out, b"$upscope $end\n$enddefinitions $end\n")?;
    Ok(())
}

fn push_variables(out: &mut Vec<u8>, entries: &[Entry]) -> Result<(), NoMemory>
    ensures { OnOk result (out.new.items ≡ out.old.items ++ variable_texts 0 (watched_all entries.now)) }
{
    'entries: for i in 0..entries.len() {
        push_variable(out, i, &entries[i])?;
    }
    Ok(())
}

fn push_variable(out: &mut Vec<u8>, i: usize, entry: &Entry) -> Result<(), NoMemory>
    ensures { OnOk result (out.new.items ≡ out.old.items ++ variable i (watched_in entry.now)) }
{
    push(out, b"$var wire ")?;
    push_decimal(Raw::from(entry.width), out)?;
    push(out, b" ")?;
    push_code(out, i)?;
    push(out, b" ")?;
    push(out, entry.name.as_bytes())?;
    push(out, b" $end\n")
}

/// Appends the first frame, as the spots have seen it.
pub(crate) fn push_dump(out: &mut Vec<u8>, t: u64, spots: &[Spot]) -> Result<(), NoMemory>
    ensures { OnOk result (out.new.items ≡ out.old.items ++ dump t (nameless spots.now) (numbers spots.now)) }
{
    push_time(out, t)?;
    push(out, b"$dumpvars\n")?;
    push_values(out, spots)?;
    push(out, b"$end\n")
}

fn push_values(out: &mut Vec<u8>, spots: &[Spot]) -> Result<(), NoMemory>
    ensures { OnOk result (out.new.items ≡ out.old.items ++ value_texts 0 (nameless spots.now) (numbers spots.now)) }
{
    'spots: for i in 0..spots.len() {
        push_number(out, i, &spots[i])?;
    }
    Ok(())
}

fn push_number(out: &mut Vec<u8>, i: usize, spot: &Spot) -> Result<(), NoMemory>
    ensures { OnOk result (out.new.items ≡ out.old.items ++ value_text i spot.now.width spot.now.number) }
{
    push_value(out, i, spot.width, spot.number)
}

/// Looks at a later frame. If something has changed, appends the frame's time and the changes.
pub(crate) fn push_change(
    out: &mut Vec<u8>,
    t: u64,
    spots: &mut [Spot],
    frame: &[Word],
) -> Result<(), NoMemory>
    ensures added { OnOk result (out.new.items ≡ out.old.items ++ timed t (changes_in spots.old (shown_frame frame.now))) }
    ensures now { OnOk result (spots.new ≡ looked_all (shown_frame frame.now) spots.old) }
{
    let start = out.len();
    push_time(out, t)?;
    let timed = out.len();
    push_changes(out, spots, frame)?;
    if out.len() == timed {
        out.truncate(start);
        return Ok(());
    }
    Ok(())
}

fn push_changes(out: &mut Vec<u8>, spots: &mut [Spot], frame: &[Word]) -> Result<(), NoMemory>
    ensures added { OnOk result (out.new.items ≡ out.old.items ++ changes_in spots.old (shown_frame frame.now)) }
    ensures now { OnOk result (spots.new ≡ looked_all (shown_frame frame.now) spots.old) }
{
    'spots: for i in 0..spots.len() {
        push_changed(out, i, &mut spots[i], frame)?;
    }
    Ok(())
}

// Looks at a frame, and appends the number of a watched signal if it has changed.
#[inline(always)]
fn push_changed(
    out: &mut Vec<u8>,
    i: usize,
    spot: &mut Spot,
    frame: &[Word],
) -> Result<(), NoMemory>
    ensures added { OnOk result (out.new.items ≡ out.old.items ++ changed_in i spot.old (shown_frame frame.now)) }
    ensures now { OnOk result (spot.new ≡ looked (shown_frame frame.now) spot.old) }
{
    let number = number_at(frame, spot.signal);
    if number == spot.number {
        return Ok(());
    }
    spot.number = number;
    push_value(out, i, spot.width, number)
}
