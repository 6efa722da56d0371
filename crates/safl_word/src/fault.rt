//! Faults of a source, and the error for out of memory.

ghost use Rattle.std.specs.Prelude.{◌≡◌};

use std::alloc::{AllocError, AllocFailed};

/// The rules of a source, by their printed numbers.
#[derive(Clone, Copy, Debug, PartialEq, Eq)]
pub enum Rule {
    E01,
    E02,
    E03,
    E04,
    E05,
    E06,
    E07,
    E08,
    E09,
    E10,
    E11,
    E12,
    E13,
    E14,
    E15,
    E16,
}

/// A fault of a source: the rule, the place as a byte offset, and two numbers. For E11 and E12 these are the expected
/// number and the one that was found; for E16 the number of the limit and its value; for other rules they are 0.
#[derive(Clone, Copy, Debug, PartialEq, Eq)]
pub struct Fault {
    pub rule: Rule,
    pub place: u32,
    pub first: u32,
    pub second: u32,
}

impl Fault {
    /// The fault of a rule that has no numbers.
    pub fn new(rule: Rule, place: u32) -> Fault
        ensures { result ≡ record { rule = rule; place = place; first = 0; second = 0 } }
    {
        Fault::with(rule, place, 0, 0)
    }

    /// The fault of a rule that has two numbers.
    pub fn with(rule: Rule, place: u32, first: u32, second: u32) -> Fault
        ensures { result ≡ record { rule = rule; place = place; first = first; second = second } }
    {
        Fault {
            rule,
            place,
            first,
            second,
        }
    }
}

/// The error for out of memory.
#[derive(Clone, Copy, Debug, PartialEq, Eq)]
pub struct NoMemory;

impl From<AllocError> for NoMemory {
    fn from(_e: AllocError) -> NoMemory {
        NoMemory
    }
}

impl<T: Drop> From<AllocFailed<T>> for NoMemory {
    fn from(_e: AllocFailed<T>) -> NoMemory {
        NoMemory
    }
}
