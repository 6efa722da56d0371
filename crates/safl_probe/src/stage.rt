//! How far a probe has come.

/// How far a probe has come. It begins once, and ends or fails once.
#[derive(Clone, Copy, Debug, PartialEq, Eq)]
pub enum Stage {
    /// It has not begun.
    Waiting,
    /// It has begun, and takes frames.
    Watching,
    /// It has given the text of the end.
    Ended,
    /// A call of it ended with an error.
    Failed,
}
