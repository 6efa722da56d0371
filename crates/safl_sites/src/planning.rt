//! The plan of a checked program.

ghost use Rattle.std.specs.Prelude.{◌≡◌, ℕ, ◌<◌, length, false, get_or, IfOk, IfErr};
ghost use Rattle.safl_sites.specs.Collecting.{IsCollected};
ghost use Rattle.safl_sites.specs.Peers.{ArePeers};
ghost use Rattle.safl_sites.specs.Plan.{IsPlan};
ghost use Rattle.safl_sites.specs.Planned.{BeforeTable, IsPlanned};
ghost use Rattle.safl_sites.specs.SiteSets.{has};

use crate::collect::collect_site;
use crate::fill::{Tables, fill};
use crate::kept::keep_all;
use crate::peers::peers;
use crate::planned::Planned;
use crate::site_set::SiteSet;
use crate::spread::spread;
use safl_term::Checked;
use std::alloc::{AllocError, Global};

/// The plan of a checked program: for each unit whether it needs an arbiter, and for each site whether it keeps its
/// word. The error is out of memory, and hands the program back.
pub fn plan(alloc: Global, c: Checked) -> Result<Planned, Checked>
    ensures ok { IfOk result (λ p. p.checked ≡ c) }
    ensures plan { IfOk result (λ p. IsPlan c.program p.arbiter p.kept) }
    ensures err { IfErr result (λ back. back ≡ c) }
{
    match find(alloc, &c) {
        Ok(found) => Ok(Planned::new(c, found)),
        Err(_) => Err(c),
    }
}

/// What is found of a program for its plan.
#[derive(Drop)]
pub struct Findings {
    pub bodies: Vec<SiteSet>,
    pub before: Vec<SiteSet>,
    pub arbiters: Vec<bool>,
    pub keeps: Vec<bool>,
}

fn find(alloc: Global, c: &Checked) -> Result<Findings, AllocError>
    ensures { IfOk result (λ f. IsPlanned c.now (record { arbiters = f.arbiters.items; keeps = f.keeps.items }) f.bodies.items f.before.items) }
{
    let Tables {
        bodies,
        units,
        after,
    } = fill(alloc, c)?;
    let mut before = after;
    spread(alloc, c, &mut before)?;
    let peers = peers(alloc, c)?;
    let mut kept = SiteSet::new();
    let arbiters = collect(alloc, c, &before, &peers, &mut kept)?;
    keep_all(alloc, c, &units, &bodies, &peers, &mut kept)?;
    let keeps = listed(alloc, &kept, c.sites() + 1)?;
    Ok(Findings {
        bodies,
        before,
        arbiters,
        keeps,
    })
}

// For each unit, whether two of its sites conflict. All sites that conflict join `kept`.
fn collect(
    alloc: Global,
    c: &Checked,
    before: &[SiteSet],
    peers: &[SiteSet],
    kept: &mut SiteSet,
) -> Result<Vec<bool>, AllocError>
    requires conflicts { BeforeTable c.now.program before.now }
    requires peers { ArePeers c.now.program c.now.program.sites peers.now }
    requires empty { (k : ℕ) → has kept.old k ≡ false }
    ensures { IfOk result (λ v. IsCollected c.now.program c.now.program.sites v.items kept.new) }
{
    let mut arbiters = vec![in alloc; false; c.functions() as usize]?;
    let sites = c.sites();
    for done in 0..sites {
        collect_site(c, done + 1, before, peers, &mut arbiters, kept);
    }
    Ok(arbiters)
}

// For each number below a bound, whether it is in a set.
fn listed(alloc: Global, set: &SiteSet, count: u32) -> Result<Vec<bool>, AllocError>
    requires { count < 4033 }
    ensures count { IfOk result (λ v. length v.items ≡ count) }
    ensures items { IfOk result (λ v. (k : ℕ) → k < count → get_or v.items k false ≡ has set.now k) }
{
    let mut items = vec![in alloc; false; count as usize]?;
    for k in 0..count {
        items[k as usize] = set.contains(k);
    }
    Ok(items)
}
