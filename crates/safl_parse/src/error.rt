//! Why some tokens cannot be read.

ghost use Rattle.std.specs.Prelude.{◌≡◌};
ghost use Rattle.safl_parse.specs.declared.error.ReadError.TheVariants as errors;

use safl_word::{NoMemory, Token};
use std::alloc::{AllocError, AllocFailed};

/// What is wrong at a token: it is nested too deep, it is unexpected, or a number is out of range.
#[derive(Clone, Copy, Debug, PartialEq, Eq)]
pub enum Cause {
    Deep,
    Unexpected,
    Range,
}

/// Memory ran out, or something is wrong at the first of these tokens. If there are none, it is wrong at the end of the
/// source.
#[derive(Debug, Drop)]
pub enum ReadError<'a> {
    NoMemory,
    Refused(Cause, &'a [Token]),
}

/// What some tokens begin with and the tokens after it, or why they cannot be read.
pub type Read<'a, T> = Result<(T, &'a [Token]), ReadError<'a>>;

impl<'a> From<AllocError> for ReadError<'a> {
    ghost from_gives = { λ _ e. e ≡ errors.NoMemory };

    fn from(_e: AllocError) -> ReadError<'a> {
        ReadError::NoMemory
    }
}

impl<'a, T: Drop> From<AllocFailed<T>> for ReadError<'a> {
    ghost from_gives = { λ _ e. e ≡ errors.NoMemory };

    fn from(_e: AllocFailed<T>) -> ReadError<'a> {
        ReadError::NoMemory
    }
}

impl<'a> From<NoMemory> for ReadError<'a> {
    ghost from_gives = { λ _ e. e ≡ errors.NoMemory };

    fn from(_e: NoMemory) -> ReadError<'a> {
        ReadError::NoMemory
    }
}
