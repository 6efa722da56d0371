//! The form of a command: the files that it reads, what it gives, the ways in which it ends, and their exit statuses.
#![tactic(auto)]

mod input;
mod status;

pub use crate::input::{Input, Unread, read_inputs};
pub use crate::status::{Status, status_if};
