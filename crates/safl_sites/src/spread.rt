//! Handing on what comes before a site, from callers to the functions that they call.

ghost use Rattle.std.specs.Prelude.{◌≡◌, ℕ, suc, ◌-◌, ◌≤◌, length, OnOk, ◌↔◌};
ghost use Rattle.safl_term.specs.Checked.{IsChecked};
ghost use Rattle.safl_sites.specs.Filling.{StandsAfter};
ghost use Rattle.safl_sites.specs.Planned.{BeforeTable};
ghost use Rattle.safl_sites.specs.SiteSets.{HasAt};
ghost use Rattle.safl_sites.specs.Spreading.{IsSpread};

use crate::fill::empty_sets;
use crate::site_set::SiteSet;
use safl_term::Checked;
use std::alloc::{AllocError, Global};

/// Adds to the set of each site what comes before the sites that call the unit of its function. The unit of a called
/// function is below that of its caller, so the sites are taken in falling order.
pub fn spread(alloc: Global, c: &Checked, sets: &mut [SiteSet]) -> Result<(), AllocError>
    requires count { length sets.old ≡ suc c.now.program.sites }
    requires after { (j k : ℕ) → HasAt sets.old k j ↔ StandsAfter c.now.program c.now.program.functions j k }
    ensures { OnOk result (BeforeTable c.now.program sets.new) }
{
    let mut handed = empty_sets(alloc, c.functions() as usize)?;
    let sites = c.sites();
    for done in 0..sites {
        spread_site(c, sites - done, &mut handed, sets);
    }
    Ok(())
}

fn spread_site(c: &Checked, k: u32, handed: &mut [SiteSet], sets: &mut [SiteSet])
    requires checked { IsChecked c.now }
    requires least { 1 ≤ k }
    requires most { k ≤ c.now.program.sites }
    requires spread { IsSpread c.now.program k sets.old handed.old }
    ensures { IsSpread c.now.program (k - 1) sets.new handed.new }
{
    let mut set = sets[k as usize];
    set.union(&handed[c.unit(c.caller(k)) as usize]);
    sets[k as usize] = set;
    handed[c.unit_for(k) as usize].union(&set);
}
