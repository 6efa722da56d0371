//! The limits that a reshaped program might pass.

ghost use Rattle.std.specs.Prelude.{◌≡◌, ◌≤◌, length, OnOk, IfErr};
ghost use Rattle.safl_word.specs.Limits.{functions_max};
ghost use Rattle.safl_tree.specs.Shown.{shown_definitions};
ghost use Rattle.safl_typing.specs.Heads.{heads};
ghost use Rattle.safl_typing.specs.PlainHeads.{shown_heads};
ghost use Rattle.safl_typing.specs.Forms.{nodes_of};
ghost use Rattle.safl_reshape.specs.Counting.{saturated};
ghost use Rattle.safl_reshape.specs.Limits.{KeepsLimits, site_total};
ghost use Rattle.safl_reshape.specs.Refusals.{RefusesLimit};

use crate::counts::{Counts, count};
use crate::error::ReshapeErr;
use safl_check::{heads_of, next_unit};
use safl_tree::Def;
use safl_typing::heads::Heads;
use safl_word::limits::{FUNCTIONS_MAX, NODES_MAX, SITES_MAX};
use std::alloc::Global;

/// Refuses definitions that pass a limit on functions, call sites or nodes. If they pass several, the error is the
/// first of these.
pub fn look_at_limits(alloc: Global, defs: &[Def]) -> Result<(), ReshapeErr>
    ensures kept { OnOk result (KeepsLimits (shown_definitions defs.now)) }
    ensures refused { IfErr result (RefusesLimit (shown_definitions defs.now)) }
{
    if defs.len() > FUNCTIONS_MAX {
        return Err(ReshapeErr::Limit(1));
    }
    let heads = heads_of(alloc, defs)?;
    let counts = count_defs(&heads, defs);
    if counts.sites > SITES_MAX {
        return Err(ReshapeErr::Limit(4));
    }
    if counts.nodes > NODES_MAX {
        return Err(ReshapeErr::Limit(5));
    }
    Ok(())
}

// The numbers of call sites and of nodes of all bodies.
fn count_defs(all_heads: &Heads, defs: &[Def]) -> Counts
    requires few { length defs.now ≤ functions_max }
    requires heads { shown_heads all_heads.now ≡ heads (shown_definitions defs.now) }
    ensures sites { saturated result.sites ≡ saturated (site_total (heads (shown_definitions defs.now)) 0 0 (shown_definitions defs.now)) }
    ensures nodes { saturated result.nodes ≡ saturated (nodes_of (shown_definitions defs.now)) }
{
    let mut unit = 0;
    let mut counts = Counts { sites: 0, nodes: 0 };
    for number in 0..defs.len() {
        let def = &defs[number];
        unit = next_unit(number as u32, unit, def);
        counts = count(all_heads, unit, counts, &def.body);
    }
    counts
}
