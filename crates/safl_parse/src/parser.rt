//! What the functions of the parser share.

use std::alloc::Global;

/// The parser of a source: the source's bytes, and the allocator.
#[derive(Clone, Copy)]
pub struct Parser<'s> {
    pub alloc: Global,
    pub text: &'s [u8],
}
