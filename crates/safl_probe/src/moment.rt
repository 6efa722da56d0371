//! The moments of a run at which a probe writes text.

/// A moment of a run at which a probe writes text.
#[derive(Clone, Copy, Debug, PartialEq, Eq)]
pub enum Moment {
    /// Before the first cycle.
    Beginning,
    /// After the tick of the cycle with this number.
    Frame(u64),
    /// After the last cycle.
    End,
}
