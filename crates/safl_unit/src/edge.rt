//! The next words of all registers, which they take at the edge.

ghost use Rattle.std.specs.Prelude.{◌≡◌, ℕ, ◌+◌, ◌*◌, [], ◌∷◌, length, IfOk, OnOk};
ghost use Rattle.safl_term.specs.Checked.{IsChecked};
ghost use Rattle.safl_net.specs.Names.{IsTidy};
ghost use Rattle.safl_net.specs.Settled.{IsSettled};
ghost use Rattle.safl_lower.specs.Sources.{Builds, CanGrow};
ghost use Rattle.safl_lower.specs.Tables.{FitsIn, IsBitIn};
ghost use Rattle.safl_unit.specs.Cycles.{UnitFits, PinsFit};
ghost use Rattle.safl_unit.specs.Stages.{ReturnsFit, OutcomesFit, GoesFit, EndsFit, TestsFit, HasReturns, HasOutcomes, HasGoes, HasNext};
ghost use Rattle.safl_unit.specs.Coming.{EventsFit};
ghost use Rattle.safl_unit.specs.Steps.{AllUnitsNext, GivesUnit, AllMembersNext, AllSitesNext};

use crate::arrivals::{callee_of, caller_of, function_count, site_count, unit_of};
use crate::events::{Events, edge_events};
use crate::names::has_peers;
use crate::next::{Entry, next_member, next_site, next_unit};
use crate::pins::{Bank, MemberPins, Outcomes, Pins, Returns, SitePins, UnitPins};
use safl_lower::loads::Load;
use safl_net::{Net, Sig};
use safl_sites::Planned;
use safl_word::NoMemory;
use std::alloc::{AllocError, Global};

/// The signals that have the next words of the registers.
pub fn edge(
    alloc: Global,
    net: &mut Net,
    p: &Planned,
    pins: &Pins,
    returns: &Returns,
    outcomes: &Outcomes,
    goes: &[Sig],
) -> Result<Bank, NoMemory>
    requires settled { IsSettled net.old }
    requires pins { PinsFit p.now.program net.old pins.now }
    requires returns { HasReturns p.now.program p.now.choice net.old pins.now returns.now }
    requires outcomes { HasOutcomes p.now.program p.now.choice net.old pins.now outcomes.now }
    requires goes { HasGoes p.now.program p.now.choice net.old pins.now goes.now }
    requires room { CanGrow net.old (1024 * p.now.program.functions + 32 * p.now.program.sites + 32) }
    ensures tidy { IsTidy net.new }
    ensures built { OnOk result (Builds net.old net.new (1024 * p.now.program.functions + 32 * p.now.program.sites + 32)) }
    ensures done { IfOk result (λ b. HasNext p.now.program p.now.choice net.new pins.now b) }
{
    let events = edge_events(alloc, net, p, outcomes, goes)?;
    let units = next_units(alloc, net, p, pins, &events.ends, &events.starts)?;
    let members = next_members(alloc, net, p, pins, &events, outcomes)?;
    let sites = next_sites(alloc, net, p, pins, returns, goes, &events.clears)?;
    Ok(Bank {
        units,
        members,
        sites,
    })
}

/// For each function, the next words of its unit's registers.
pub fn next_units(
    alloc: Global,
    net: &mut Net,
    p: &Planned,
    pins: &Pins,
    ends: &[Option<Load>],
    starts: &[Option<Sig>],
) -> Result<Vec<UnitPins>, NoMemory>
    requires pins { PinsFit p.now.program net.old pins.now }
    requires ends { EndsFit p.now.program net.old ends.now }
    requires starts { TestsFit p.now.program net.old starts.now }
    requires room { CanGrow net.old (5 * p.now.program.functions) }
    ensures tidy { IsTidy net.new }
    ensures built { OnOk result (Builds net.old net.new (5 * p.now.program.functions)) }
    ensures checked { IsChecked p.now.checked }
    ensures done { IfOk result (λ all. AllUnitsNext p.now.program net.new pins.now ends.now starts.now all.items) }
{
    let functions = function_count(p);
    let mut all = Vec::new(alloc);
    for f in 0..functions {
        let unit = unit_of(p, f);
        let end = &ends[unit as usize];
        let start = starts[unit as usize];
        let now = pins.bank.units[unit as usize];
        let next = unit_after(net, &all, unit as usize, end, start, now)?;
        all.push(next)?;
    }
    Ok(all)
}

// The next words of the registers of a function's unit. If the unit's first function came before, they are known
// already.
fn unit_after(
    net: &mut Net,
    all: &[UnitPins],
    unit: usize,
    end: &Option<Load>,
    start: Option<Sig>,
    now: UnitPins,
) -> Result<UnitPins, NoMemory>
    requires fits { (w : ℕ) × FitsIn net.old end.now (w ∷ []) × UnitFits net.old now w }
    requires start { IsBitIn net.old start }
    requires room { CanGrow net.old 5 }
    ensures tidy { IsTidy net.new }
    ensures built { OnOk result (Builds net.old net.new 5) }
    ensures done { GivesUnit result net.old net.new all.now unit end.now start now }
{
    if unit < all.len() {
        return Ok(all[unit]);
    }
    let next = next_unit(net, end, start, now)?;
    Ok(next)
}

/// For each function, the next words of its own registers.
pub fn next_members(
    alloc: Global,
    net: &mut Net,
    p: &Planned,
    pins: &Pins,
    events: &Events,
    outcomes: &Outcomes,
) -> Result<Vec<MemberPins>, NoMemory>
    requires settled { IsSettled net.old }
    requires pins { PinsFit p.now.program net.old pins.now }
    requires events { EventsFit p.now.program net.old events.now }
    requires outcomes { OutcomesFit p.now.program net.old outcomes.now }
    requires room { CanGrow net.old (995 * p.now.program.functions) }
    ensures tidy { IsTidy net.new }
    ensures built { OnOk result (Builds net.old net.new (995 * p.now.program.functions)) }
    ensures done { IfOk result (λ all. AllMembersNext p.now.program net.new pins.now events.now outcomes.now all.items) }
{
    let functions = function_count(p);
    let mut all = Vec::new(alloc);
    for f in 0..functions {
        let many = has_peers(p.checked(), f);
        let own = events.entries[f as usize];
        let rival = events.rivals[f as usize];
        let entry = Entry { own, rival };
        let load = &events.loads[f as usize];
        let looped = &outcomes.loops[f as usize];
        let now = &pins.bank.members[f as usize];
        let next = next_member(alloc, net, many, entry, load, looped, now)?;
        all.push(next)?;
    }
    Ok(all)
}

/// For each site, the next words of its registers. The first entry is not used.
pub fn next_sites(
    alloc: Global,
    net: &mut Net,
    p: &Planned,
    pins: &Pins,
    returns: &Returns,
    goes: &[Sig],
    clears: &[Option<Sig>],
) -> Result<Vec<SitePins>, NoMemory>
    requires pins { PinsFit p.now.program net.old pins.now }
    requires returns { ReturnsFit p.now.program net.old returns.now }
    requires goes { GoesFit p.now.program net.old goes.now }
    requires clears { TestsFit p.now.program net.old clears.now }
    requires room { CanGrow net.old (7 * p.now.program.sites) }
    ensures tidy { IsTidy net.new }
    ensures built { OnOk result (Builds net.old net.new (7 * p.now.program.sites)) }
    ensures done { IfOk result (λ all. AllSitesNext p.now.program p.now.choice net.new pins.now returns.now goes.now clears.now all.items) }
{
    let first = pins.bank.sites[0];
    let mut all = one_site(alloc, first)?;
    let sites = site_count(p);
    for done in 0..sites {
        let k = done + 1;
        let callee = callee_of(p, k);
        let caller = caller_of(p, k);
        let owner = unit_of(p, caller);
        let clear = clears[owner as usize];
        let unit = pins.bank.units[callee as usize];
        let now = pins.bank.sites[k as usize];
        let ret = returns.ret[k as usize];
        let go = goes[k as usize];
        let next = next_site(net, p.kept(k), ret, go, clear, unit.res, now)?;
        all.push(next)?;
    }
    Ok(all)
}

// A list with the first entry, which is not used.
fn one_site(alloc: Global, filler: SitePins) -> Result<Vec<SitePins>, AllocError>
    ensures count { IfOk result (λ all. length all.items ≡ 1) }
{
    let all = vec![in alloc; filler]?;
    Ok(all)
}
