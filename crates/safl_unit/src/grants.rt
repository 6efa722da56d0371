//! Which sites start: at a unit with an arbiter, the lowest site that wants, if the unit rests.

ghost use Rattle.std.specs.Prelude.{◌≡◌, ◌+◌, ◌*◌, ◌<◌, ◌&&◌, true, not, cond, length, slice_get, IfOk, OnOk};
ghost use Rattle.safl_net.specs.Names.{IsTidy};
ghost use Rattle.safl_net.specs.Growth.{Val, Wired};
ghost use Rattle.safl_net.specs.Bits.{on};
ghost use Rattle.safl_lower.specs.Sources.{IsSource, Builds, CanGrow};
ghost use Rattle.safl_lower.specs.Tables.{on_in};
ghost use Rattle.safl_lower.specs.Rows.{AreBits};
ghost use Rattle.safl_unit.specs.Cycles.{PinsFit};
ghost use Rattle.safl_unit.specs.Stages.{HasOutcomes, HasGoes};

use crate::arbiters::{unit_frees, unit_wants};
use crate::pins::{Outcomes, Pins};
use safl_lower::gates::{both, inverse};
use safl_net::{Net, Sig};
use safl_sites::Planned;
use safl_word::NoMemory;
use std::alloc::Global;

/// For each site, the bit that says that it starts. The first entry is for the call of main from outside.
pub fn grants(
    alloc: Global,
    net: &mut Net,
    p: &Planned,
    pins: &Pins,
    outcomes: &Outcomes,
) -> Result<Vec<Sig>, NoMemory>
    requires pins { PinsFit p.now.program net.old pins.now }
    requires outcomes { HasOutcomes p.now.program p.now.choice net.old pins.now outcomes.now }
    requires room { CanGrow net.old (5 * p.now.program.sites + 2) }
    ensures tidy { IsTidy net.new }
    ensures built { OnOk result (Builds net.old net.new (5 * p.now.program.sites + 2)) }
    ensures done { IfOk result (λ s. HasGoes p.now.program p.now.choice net.new pins.now s.items) }
{
    let c = p.checked();
    let functions = c.functions();
    let units = &pins.bank.units;
    let main = main_grant(net, pins.start, units[functions as usize - 1].run)?;
    let wants = unit_wants(alloc, p, outcomes)?;
    let frees = unit_frees(alloc, net, p, pins, &wants.rows)?;
    let mut goes = vec![in alloc; main]?;
    let sites = c.sites();
    for done in 0..sites {
        let k = done + 1;
        let callee = c.callee(k);
        let place = c.unit(callee) as usize;
        let want = outcomes.wants[k as usize].bit;
        let rank = wants.ranks[k as usize];
        let go = site_grant(net, p.arbiter(callee), want, &frees[place], rank)?;
        goes.push(go)?;
    }
    Ok(goes)
}

// Main starts if it is called from outside and its unit rests.
fn main_grant(net: &mut Net, start: Sig, run: Sig) -> Result<Sig, NoMemory>
    requires start { IsSource net.old start 1 }
    requires run { IsSource net.old run 1 }
    requires room { CanGrow net.old 2 }
    ensures tidy { IsTidy net.new }
    ensures built { OnOk result (Builds net.old net.new 2) }
    ensures fits { IfOk result (λ s. IsSource net.new s 1) }
    ensures value { IfOk result (λ s. (v : Val) → Wired net.new v → on v s ≡ (on v start && not (on v run))) }
{
    let rests = inverse(net, run)?;
    both(net, start, rests)
}

// A site starts if it wants. If its unit has an arbiter, it also has to be free among the sites of its unit.
fn site_grant(
    net: &mut Net,
    arbiter: bool,
    want: Sig,
    frees: &[Sig],
    rank: usize,
) -> Result<Sig, NoMemory>
    requires want { IsSource net.old want 1 }
    requires frees { AreBits net.old frees.now }
    requires rank { arbiter ≡ true → rank < length frees.now }
    requires room { CanGrow net.old 1 }
    ensures tidy { IsTidy net.new }
    ensures built { OnOk result (Builds net.old net.new 1) }
    ensures fits { IfOk result (λ s. IsSource net.new s 1) }
    ensures value { IfOk result (λ s. (v : Val) → Wired net.new v → on v s ≡ cond arbiter (on v want && on_in v (slice_get frees.now rank)) (on v want)) }
{
    if !arbiter {
        return Ok(want);
    }
    both(net, want, frees[rank])
}
