//! Which signals of a net a probe watches, and what it sees of them in a frame.

ghost use Rattle.std.specs.Prelude.{◌≡◌, ◌++◌, ◌<◌, length, map, slice_get, slice_index, IfOk, OnOk};
ghost use Rattle.safl_probe.specs.Watching.{watched_by, group_from, one_watched, output_watched, signal_at, shown_frame};
ghost use Rattle.safl_probe.specs.Entries.{watched_all, spot_of, name_of, looked, looked_all};

use crate::entry::{Entry, Spot, make_entry, make_spot};
use crate::kind::{Group, TraceKind, belongs};
use safl_net::{Net, Sig};
use safl_word::{NoMemory, Raw, Word};
use std::alloc::{AllocError, Global};

/// The entries of all signals that a probe of this kind watches.
pub(crate) fn entries_of(alloc: Global, kind: TraceKind, net: &Net) -> Result<Vec<Entry>, NoMemory>
    ensures { IfOk result (λ v. watched_all v.items ≡ watched_by kind net.now) }
{
    let mut entries = Vec::new(alloc);
    match kind {
        TraceKind::Vcd => watch_traced(alloc, &mut entries, net)?,
        TraceKind::Starts => watch_group(alloc, &mut entries, net, Group::StartWires)?,
        TraceKind::Toggles => watch_group(alloc, &mut entries, net, Group::Registers)?,
        TraceKind::Silent => (),
    }
    Ok(entries)
}

fn watch_traced(alloc: Global, entries: &mut Vec<Entry>, net: &Net) -> Result<(), NoMemory>
    ensures { OnOk result (watched_all entries.new.items ≡ watched_all entries.old.items ++ watched_by TraceKind.Vcd net.now) }
{
    watch_group(alloc, entries, net, Group::Inputs)?;
    watch_group(alloc, entries, net, Group::Registers)?;
    watch_group(alloc, entries, net, Group::NamedWires)?;
    watch_outputs(alloc, entries, net)
}

// Appends the entries of the signals of a group.
fn watch_group(
    alloc: Global,
    entries: &mut Vec<Entry>,
    net: &Net,
    group: Group,
) -> Result<(), NoMemory>
    ensures { OnOk result (watched_all entries.new.items ≡ watched_all entries.old.items ++ group_from group net.now.signals 0) }
{
    'signals: for i in 0..net.signals() {
        watch_signal(alloc, entries, net, group, Sig(i))?;
    }
    Ok(())
}

// Appends the entry of a signal, if it belongs to the group.
fn watch_signal(
    alloc: Global,
    entries: &mut Vec<Entry>,
    net: &Net,
    group: Group,
    signal: Sig,
) -> Result<(), NoMemory>
    requires { signal.0 < length net.now.signals }
    ensures { OnOk result (watched_all entries.new.items ≡ watched_all entries.old.items ++ one_watched group (signal_at net.now signal.0) signal.0) }
{
    let name = net.name(signal);
    if !belongs(group, net.kind(signal), name) {
        return Ok(());
    }
    let entry = make_entry(alloc, name, signal, net.width(signal))?;
    entries.push(entry)?;
    Ok(())
}

fn watch_outputs(alloc: Global, entries: &mut Vec<Entry>, net: &Net) -> Result<(), NoMemory>
    ensures { OnOk result (watched_all entries.new.items ≡ watched_all entries.old.items ++ map (output_watched net.now) net.now.outputs) }
{
    let _count = net.signals();
    'outputs: for i in 0..net.outputs() {
        let signal = net.output_sig(i);
        let entry = make_entry(alloc, net.output_name(i), signal, net.width(signal))?;
        entries.push(entry)?;
    }
    Ok(())
}

/// The spots of some entries, before the first frame.
pub(crate) fn spots_of(alloc: Global, entries: &[Entry]) -> Result<Vec<Spot>, AllocError>
    ensures { IfOk result (λ v. v.items ≡ map spot_of entries.now) }
{
    let mut spots = Vec::with_capacity(alloc, entries.len())?;
    'entries: for i in 0..entries.len() {
        spots.push(make_spot(&entries[i]))?;
    }
    Ok(spots)
}

/// The name of the entry at a place.
pub(crate) fn entry_name(entries: &[Entry], i: usize) -> &str
    ensures { result.now ≡ name_of (slice_get entries.now i) }
{
    match entries.get(i) {
        Some(entry) => entry.name.as_str(),
        None => "",
    }
}

/// Looks at a frame: each spot takes the number that its signal has there.
pub(crate) fn look(spots: &mut [Spot], frame: &[Word])
    ensures { spots.new ≡ looked_all (shown_frame frame.now) spots.old }
{
    'spots: for i in 0..spots.len() {
        see(&mut spots[i], frame);
    }
}

fn see(spot: &mut Spot, frame: &[Word])
    ensures { spot.new ≡ looked (shown_frame frame.now) spot.old }
{
    spot.number = number_at(frame, spot.signal);
}

/// The number of a signal in a frame, or 0 if the frame has no such signal.
pub(crate) fn number_at(frame: &[Word], signal: u32) -> Raw
    ensures { result ≡ slice_index (shown_frame frame.now) signal }
{
    match frame.get(signal as usize) {
        Some(word) => word.bits(),
        None => 0,
    }
}
