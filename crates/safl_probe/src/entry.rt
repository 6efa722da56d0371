//! What a probe notes of a signal that it watches.

ghost use Rattle.std.specs.Prelude.{◌≡◌, IfOk};
ghost use Rattle.safl_probe.specs.Entries.{watched_in, spot_of};

use safl_net::Sig;
use safl_word::Raw;
use std::alloc::{AllocError, Global};

/// A watched signal: its name in the trace, its number, and its width in bits.
#[derive(Drop)]
pub struct Entry {
    pub name: String,
    pub signal: u32,
    pub width: u8,
}

/// What a probe needs of a watched signal for each frame: its number, its width in bits, and the number that it had in
/// the last frame.
#[derive(Clone, Copy)]
pub struct Spot {
    pub signal: u32,
    pub width: u8,
    pub number: Raw,
}

/// The entry of a signal with this name in the trace.
pub(crate) fn make_entry(
    alloc: Global,
    name: &str,
    signal: Sig,
    width: u8,
) -> Result<Entry, AllocError>
    ensures { IfOk result (λ e. watched_in e ≡ record { name = name.now; signal = signal.0; width = width }) }
{
    Ok(Entry {
        name: String::from_str(alloc, name)?,
        signal: signal.0,
        width,
    })
}

/// The spot of an entry, before the first frame.
pub(crate) fn make_spot(entry: &Entry) -> Spot
    ensures { result ≡ spot_of entry.now }
{
    Spot {
        signal: entry.signal,
        width: entry.width,
        number: 0,
    }
}
