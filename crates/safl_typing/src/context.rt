//! What checking a body needs to know of the program.

use crate::heads::Heads;
use std::alloc::Global;

/// The heads of the program, and the group of the function whose body is checked. All terms are allocated with `alloc`.
#[derive(Clone, Copy)]
pub struct Context<'a> {
    pub alloc: Global,
    pub heads: &'a Heads,
    pub unit: u32,
}
