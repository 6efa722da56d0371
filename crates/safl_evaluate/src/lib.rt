//! Partial evaluation of running bodies.
//!
//! What is found of each node is kept, except of the parts of plain terms and plain bodies, which wait for no site. A node is
//! looked at again only if one of its sites has returned.
#![tactic(auto)]

pub mod answer;
pub mod args;
pub mod compute;
pub mod evaluate;
pub mod kept;
pub mod places;
pub mod stage;
pub mod want;
pub mod wants;

pub use crate::answer::Answer;
pub use crate::args::Args;
pub use crate::kept::Kept;
pub use crate::places::{Place, Plan, planned};
pub use crate::stage::Stage;
pub use crate::want::Want;
pub use crate::wants::Wants;
