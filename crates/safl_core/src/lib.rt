//! The call machine, as code that fires one event at a time.
#![tactic(auto)]

mod check;
mod concern;
mod enabled;
pub mod event;
mod fire;
pub mod machine;
mod make;
mod mode;
mod refresh;
mod spans;
mod state;
mod step;
pub mod walking;

pub use crate::event::Event;
pub use crate::machine::{Machine, MachineErr};
pub use crate::walking::{Walked, walk};
