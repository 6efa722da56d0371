//! Events of the call machine.

/// An event: a site's call is accepted, a function finishes, a site gets its word, or a unit loops to a function of its
/// group. Site 0 is the call of main from outside.
#[derive(Clone, Copy, Debug, PartialEq, Eq)]
pub enum Event {
    Accept(u32),
    Finish(u32),
    Return(u32),
    Loop(u32),
}
