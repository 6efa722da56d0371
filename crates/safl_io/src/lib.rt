//! Input and output: a shelf of named files, and sinks for text.
#![tactic(auto)]

mod calls;
pub mod dir_shelf;
pub mod fault;
pub mod mem_shelf;
pub mod mem_sink;
mod opened;
pub mod read;
pub mod shelf;
pub mod sink;
pub mod std_sink;
mod stored;
mod transfer;
pub mod write;

pub use crate::dir_shelf::DirShelf;
pub use crate::fault::{Failed, OutErr};
pub use crate::mem_shelf::MemShelf;
pub use crate::mem_sink::MemSink;
pub use crate::read::{ReadErr, read_file};
pub use crate::shelf::Shelf;
pub use crate::sink::Sink;
pub use crate::std_sink::StdSink;
pub use crate::write::write_file;
