//! Sessions: several calls of one circuit, each after the one before is done.
//!
//! The calls are read from scripts, and the replies are printed as transcripts.
#![tactic(auto)]

mod cutting;
pub mod laws;
mod line;
pub mod script;
pub mod session;
mod transcript;
mod transcript_line;

pub use crate::line::read_argument;
pub use crate::script::{Script, ScriptErr, read_script};
pub use crate::session::{Reply, Session};
pub use crate::transcript::send_transcript;
pub use crate::transcript_line::push_late;
