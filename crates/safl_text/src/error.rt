//! Why a source has no tokens.

ghost use Rattle.std.specs.Prelude.{◌≡◌};
ghost use Rattle.safl_text.specs.declared.error.LexErr.TheVariants.{NoMemory};

use safl_word::Fault;
use std::alloc::{AllocError, AllocFailed};

/// Why a source has no tokens: its first lexical fault, or out of memory.
#[derive(Clone, Copy, Debug, PartialEq, Eq)]
pub enum LexErr {
    Refused(Fault),
    NoMemory,
}

impl From<AllocError> for LexErr {
    ghost from_gives = { λ _ e. e ≡ NoMemory };

    fn from(_e: AllocError) -> LexErr {
        LexErr::NoMemory
    }
}

impl<T: Drop> From<AllocFailed<T>> for LexErr {
    ghost from_gives = { λ _ e. e ≡ NoMemory };

    fn from(_e: AllocFailed<T>) -> LexErr {
        LexErr::NoMemory
    }
}
