//! Sites of a body that keep their words for its conditions and bindings.

ghost use Rattle.std.specs.Prelude.{suc, ◌≤◌, ◌<◌, ◌↔◌, IsTrue, OnOk};
ghost use Rattle.safl_term.specs.Checked.{IsChecked};
ghost use Rattle.safl_sites.specs.Bodies.{UnitTable, MustKeep, IsOwnKept, IsBodyKept, IsKeptBelow};
ghost use Rattle.safl_sites.specs.Peers.{ArePeers};
ghost use Rattle.safl_sites.specs.Planned.{ReachTable};
ghost use Rattle.safl_sites.specs.SiteSets.{Gains};

use crate::fill::empty_sets;
use crate::keep::{Keeping, walk};
use crate::site_set::SiteSet;
use safl_term::Checked;
use std::alloc::{AllocError, Global};

/// Adds to `kept` the sites of all bodies that keep their words for a condition or a binding.
pub fn keep_all(
    alloc: Global,
    c: &Checked,
    units: &[SiteSet],
    bodies: &[SiteSet],
    peers: &[SiteSet],
    kept: &mut SiteSet,
) -> Result<(), AllocError>
    requires units { UnitTable c.now.program units.now }
    requires bodies { ReachTable c.now.program bodies.now }
    requires peers { ArePeers c.now.program c.now.program.sites peers.now }
    ensures { OnOk result (Gains kept.old kept.new (IsKeptBelow c.now.program c.now.program.functions)) }
{
    let functions = c.functions();
    for g in 0..functions {
        keep_body(alloc, c, g, units, bodies, peers, kept)?;
    }
    Ok(())
}

fn keep_body(
    alloc: Global,
    c: &Checked,
    g: u32,
    units: &[SiteSet],
    bodies: &[SiteSet],
    peers: &[SiteSet],
    kept: &mut SiteSet,
) -> Result<(), AllocError>
    requires within { g < c.now.program.functions }
    requires units { UnitTable c.now.program units.now }
    requires bodies { ReachTable c.now.program bodies.now }
    requires peers { ArePeers c.now.program c.now.program.sites peers.now }
    ensures { OnOk result (Gains kept.old kept.new (IsBodyKept c.now.program g)) }
{
    let mut slots = empty_sets(alloc, c.params(g) as usize)?;
    let mut feeds = SiteSet::new();
    let mut keeps = Keeping {
        decides: SiteSet::new(),
        held: SiteSet::new(),
    };
    walk(
        c,
        units,
        peers,
        &mut slots,
        c.body(g),
        &mut feeds,
        &mut keeps,
    )?;
    keep_own(c, g, &bodies[g as usize], peers, &keeps, kept);
    Ok(())
}

fn keep_own(
    c: &Checked,
    g: u32,
    reach: &SiteSet,
    peers: &[SiteSet],
    keeps: &Keeping,
    kept: &mut SiteSet,
)
    requires checked { IsChecked c.now }
    requires within { g < c.now.program.functions }
    requires peers { ArePeers c.now.program c.now.program.sites peers.now }
    ensures { Gains kept.old kept.new (IsOwnKept c.now.program reach.now peers.now keeps.now (c.now.first_site g) (c.now.first_site (suc g))) }
{
    let first = c.first_site(g);
    let count = c.own_sites(g);
    for i in 0..count {
        let k = first + i;
        if must_keep(c, k, reach, peers, keeps) {
            kept.insert(k);
        }
    }
}

fn must_keep(c: &Checked, k: u32, reach: &SiteSet, peers: &[SiteSet], keeps: &Keeping) -> bool
    requires checked { IsChecked c.now }
    requires least { 1 ≤ k }
    requires most { k ≤ c.now.program.sites }
    requires peers { ArePeers c.now.program c.now.program.sites peers.now }
    ensures { IsTrue result ↔ MustKeep c.now.program reach.now peers.now keeps.now k }
{
    if keeps.held.contains(k) {
        return true;
    }
    if !keeps.decides.contains(k) {
        return false;
    }
    reach.meets(&peers[c.unit_for(k) as usize], k)
}
