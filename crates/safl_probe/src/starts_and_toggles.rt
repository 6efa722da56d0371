//! The texts of starts and toggles.

ghost use Rattle.std.specs.Prelude.{◌≡◌, ◌++◌, ◌≤◌, slice_get, slice_index, bit_xor, count_ones, OnOk};
ghost use Rattle.safl_word.specs.Limits.{width_max};
ghost use Rattle.safl_probe.specs.Watching.{seen, shown_frame};
ghost use Rattle.safl_probe.specs.Texts.{start, start_lines, toggles, toggled};
ghost use Rattle.safl_probe.specs.Entries.{name_of, watched_from, nameless, numbers, looked, looked_all};

use crate::entry::{Entry, Spot};
use crate::look::{entry_name, number_at};
use crate::text_pieces::push;
use safl_word::{NoMemory, Raw, Word, push_decimal};

/// Appends a line for each watched signal that is 1.
pub(crate) fn push_starts(
    out: &mut Vec<u8>,
    t: u64,
    entries: &[Entry],
    spots: &[Spot],
) -> Result<(), NoMemory>
    ensures { OnOk result (out.new.items ≡ out.old.items ++ start_lines t (watched_from 0 entries.now spots.now) (numbers spots.now)) }
{
    'spots: for i in 0..spots.len() {
        push_start(out, t, entries, i, spots[i].number)?;
    }
    Ok(())
}

fn push_start(
    out: &mut Vec<u8>,
    t: u64,
    entries: &[Entry],
    i: usize,
    number: Raw,
) -> Result<(), NoMemory>
    ensures { OnOk result (out.new.items ≡ out.old.items ++ start t (name_of (slice_get entries.now i)) number) }
{
    if number != 1 {
        return Ok(());
    }
    push_decimal(Raw::from(t), out)?;
    push(out, b" ")?;
    push(out, entry_name(entries, i).as_bytes())?;
    push(out, b"\n")
}

/// Appends the line with the number of bits that have changed.
pub(crate) fn push_toggles(out: &mut Vec<u8>, t: u64, count: Raw) -> Result<(), NoMemory>
    ensures { OnOk result (out.new.items ≡ out.old.items ++ toggles t count) }
{
    push_decimal(Raw::from(t), out)?;
    push(out, b" ")?;
    push_decimal(count, out)?;
    push(out, b"\n")
}

/// Looks at a frame, and counts the bits that differ from the frame before.
pub(crate) fn toggle(spots: &mut [Spot], frame: &[Word]) -> Raw
    ensures count { result ≡ toggled (numbers spots.old) (seen (nameless spots.old) (shown_frame frame.now)) }
    ensures now { spots.new ≡ looked_all (shown_frame frame.now) spots.old }
{
    let mut count: Raw = 0;
    'spots: for i in 0..spots.len() {
        count += Raw::from(toggle_one(&mut spots[i], frame));
    }
    count
}

#[inline(always)]
fn toggle_one(spot: &mut Spot, frame: &[Word]) -> u32
    ensures count { result ≡ count_ones (bit_xor spot.old.number (slice_index (shown_frame frame.now) spot.old.signal)) }
    ensures most { result ≤ width_max }
    ensures now { spot.new ≡ looked (shown_frame frame.now) spot.old }
{
    let last = spot.number;
    let number = number_at(frame, spot.signal);
    spot.number = number;
    difference(last, number)
}

fn difference(last: Raw, number: Raw) -> u32
    ensures number { result ≡ count_ones (bit_xor last number) }
    ensures most { result ≤ width_max }
{
    (last ^ number).count_ones()
}
