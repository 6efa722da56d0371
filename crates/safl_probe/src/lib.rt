//! Traces: probes that watch a simulation and write text, and runs whose traces go to files of a shelf.
#![tactic(auto)]

mod begun;
pub mod drive_err;
pub mod driving;
mod entry;
mod files;
mod kind;
pub mod laws;
mod look;
mod moment;
pub mod probe;
mod room;
mod show;
mod stage;
mod starts_and_toggles;
pub mod starts_probe;
pub mod stub_probe;
mod tell;
mod text_pieces;
mod texts;
pub mod toggle_probe;
mod tracer;
pub mod vcd_probe;
mod vcd_text;
mod watch;

pub use crate::begun::none_begun;
pub use crate::drive_err::DriveErr;
pub use crate::driving::drive;
pub use crate::kind::{TraceKind, kind_of};
pub use crate::probe::{Probe, ProbeErr};
pub use crate::stage::Stage;
pub use crate::starts_probe::StartsProbe;
pub use crate::stub_probe::StubProbe;
pub use crate::toggle_probe::ToggleProbe;
pub use crate::vcd_probe::VcdProbe;
pub use safl_sim::Done;
