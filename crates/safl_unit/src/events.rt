//! All events at the edge.

ghost use Rattle.std.specs.Prelude.{◌+◌, ◌*◌, OnOk};
ghost use Rattle.safl_net.specs.Names.{IsTidy};
ghost use Rattle.safl_lower.specs.Sources.{Builds, CanGrow};
ghost use Rattle.safl_unit.specs.Stages.{OutcomesFit, GoesFit};
ghost use Rattle.safl_unit.specs.Coming.{GivesEvents};

use crate::arrivals::{function_entries, function_loads, unit_clears, unit_ends, unit_starts};
use crate::pins::Outcomes;
use crate::rivals::function_rivals;
use safl_lower::loads::Load;
use safl_net::{Net, Sig};
use safl_sites::Planned;
use safl_word::NoMemory;
use std::alloc::Global;

/// The events at the edge.
///
/// For each unit, `ends` says that one of its functions ends, and has its word; `starts` says that a site starts the
/// unit; and `clears` says that the sites of its functions are cleared. For each function, `loads` says that a site
/// starts it, and has the arguments; `entries` says that a site or a tail call starts it; and `rivals` says that
/// another function of its unit starts.
#[derive(Drop)]
pub struct Events {
    pub ends: Vec<Option<Load>>,
    pub starts: Vec<Option<Sig>>,
    pub clears: Vec<Option<Sig>>,
    pub loads: Vec<Option<Load>>,
    pub entries: Vec<Option<Sig>>,
    pub rivals: Vec<Option<Sig>>,
}

/// All that comes at the edge.
pub fn edge_events(
    alloc: Global,
    net: &mut Net,
    p: &Planned,
    outcomes: &Outcomes,
    goes: &[Sig],
) -> Result<Events, NoMemory>
    requires outcomes { OutcomesFit p.now.program net.old outcomes.now }
    requires goes { GoesFit p.now.program net.old goes.now }
    requires room { CanGrow net.old (11 * p.now.program.functions + 18 * p.now.program.sites + 18) }
    ensures tidy { IsTidy net.new }
    ensures built { OnOk result (Builds net.old net.new (11 * p.now.program.functions + 18 * p.now.program.sites + 18)) }
    ensures done { GivesEvents result p.now.program p.now.choice net.old net.new outcomes.now goes.now }
{
    let ends = unit_ends(alloc, net, p, outcomes)?;
    let loads = function_loads(alloc, net, p, outcomes, goes)?;
    let starts = unit_starts(alloc, net, p, goes)?;
    let clears = unit_clears(alloc, net, p, outcomes, &ends)?;
    let entries = function_entries(alloc, net, p, outcomes, &loads)?;
    let rivals = function_rivals(alloc, net, p, &entries)?;
    Ok(Events {
        ends,
        starts,
        clears,
        loads,
        entries,
        rivals,
    })
}
