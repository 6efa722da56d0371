//! Errors of runs that probes watch.

ghost use Rattle.std.specs.Prelude.{◌≡◌};
ghost use Rattle.safl_probe.specs.declared.drive_err.DriveErr.TheVariants as why;
ghost use Rattle.safl_probe.specs.Stopping.{unwritten, unprobed};

use crate::probe::ProbeErr;
use safl_io::OutErr;
use safl_word::NoMemory;
use std::alloc::AllocError;
use thiserror::Error;

/// Why a run that probes watch stopped before its end.
#[derive(Clone, Copy, Debug, PartialEq, Eq, Error)]
pub enum DriveErr {
    /// A probe of this kind failed, and has counted the fault.
    #[error("a probe failed")]
    Probe(u8),
    /// The file at this place of the list was not written, and the shelf has counted the fault.
    #[error("a trace was not written")]
    Write(u64),
    #[error("out of memory")]
    NoMemory,
}

impl From<NoMemory> for DriveErr {
    ghost from_gives = { λ _ e. e ≡ why.NoMemory };

    fn from(_: NoMemory) -> Self {
        DriveErr::NoMemory
    }
}

impl From<AllocError> for DriveErr {
    ghost from_gives = { λ _ e. e ≡ why.NoMemory };

    fn from(_: AllocError) -> Self {
        DriveErr::NoMemory
    }
}

/// The error of a file that cannot be written further. `place` is its place in the list.
pub(crate) fn unwritten(place: usize, why: OutErr) -> DriveErr
    ensures { result ≡ unwritten place why }
{
    match why {
        OutErr::Failed => DriveErr::Write(place as u64),
        OutErr::NoMemory => DriveErr::NoMemory,
    }
}

/// The error of a probe of kind `kind` that gives no more text.
pub(crate) fn unprobed(kind: u8, why: ProbeErr) -> DriveErr
    ensures { result ≡ unprobed kind why }
{
    match why {
        ProbeErr::Failed => DriveErr::Probe(kind),
        ProbeErr::NoMemory => DriveErr::NoMemory,
    }
}
