//! Collecting the sites that conflict, and their units.

ghost use Rattle.std.specs.Prelude.{◌-◌, ◌≤◌};
ghost use Rattle.safl_term.specs.Checked.{IsChecked};
ghost use Rattle.safl_sites.specs.Collecting.{IsCollected};
ghost use Rattle.safl_sites.specs.Peers.{ArePeers};
ghost use Rattle.safl_sites.specs.Planned.{BeforeTable};

use crate::site_set::SiteSet;
use safl_term::Checked;

/// If a site conflicts with a site before it, marks the site's unit and both sites.
pub fn collect_site(
    c: &Checked,
    k: u32,
    before: &[SiteSet],
    peers: &[SiteSet],
    arbiters: &mut [bool],
    kept: &mut SiteSet,
)
    requires checked { IsChecked c.now }
    requires least { 1 ≤ k }
    requires most { k ≤ c.now.program.sites }
    requires conflicts { BeforeTable c.now.program before.now }
    requires peers { ArePeers c.now.program c.now.program.sites peers.now }
    requires collected { IsCollected c.now.program (k - 1) arbiters.old kept.old }
    ensures { IsCollected c.now.program k arbiters.new kept.new }
{
    let unit = c.unit_for(k) as usize;
    let set = before[k as usize];
    if set.meets(&peers[unit], k) {
        arbiters[unit] = true;
        kept.insert(k);
        kept.add_common(&set, &peers[unit], k);
    }
}
