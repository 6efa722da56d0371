//! Why a call to the outside may fail.
ghost use Rattle.std.specs.Prelude.{◌≡◌};
ghost use Rattle.safl_io.specs.declared.fault.OutErr.TheVariants as why;

use std::alloc::AllocError;
use thiserror::Error;

/// A call to the outside failed. The object that was called has counted the fault.
#[derive(Clone, Copy, Debug, PartialEq, Eq, Error)]
#[error("reading failed")]
pub struct Failed;

/// Why something could not be written.
#[derive(Clone, Copy, Debug, PartialEq, Eq, Error)]
pub enum OutErr {
    /// The call failed. The object that was called has counted the fault.
    #[error("writing failed")]
    Failed,
    #[error("out of memory")]
    NoMemory,
}

impl From<AllocError> for OutErr {
    ghost from_gives = { λ _ e. e ≡ why.NoMemory };

    fn from(_: AllocError) -> Self {
        OutErr::NoMemory
    }
}
