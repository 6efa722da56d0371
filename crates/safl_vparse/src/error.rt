//! Why a Verilog file cannot be read.

ghost use Rattle.std.specs.Prelude.{◌≡◌};
ghost use Rattle.safl_vparse.specs.declared.error.VErr.TheVariants as errors;

use safl_verilog::VFault;
use std::alloc::{AllocError, AllocFailed};

/// The first fault of a file, or out of memory.
#[derive(Clone, Copy, Debug, PartialEq, Eq)]
pub enum VErr {
    Refused(VFault),
    NoMemory,
}

impl From<AllocError> for VErr {
    ghost from_gives = { λ _ e. e ≡ errors.NoMemory };

    fn from(_e: AllocError) -> VErr {
        VErr::NoMemory
    }
}

impl<T: Drop> From<AllocFailed<T>> for VErr {
    ghost from_gives = { λ _ e. e ≡ errors.NoMemory };

    fn from(_e: AllocFailed<T>) -> VErr {
        VErr::NoMemory
    }
}
