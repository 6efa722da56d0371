//! The sites of each unit.

ghost use Rattle.std.specs.Prelude.{IfOk};
ghost use Rattle.safl_sites.specs.Peers.{ArePeers};

use crate::fill::empty_sets;
use crate::site_set::SiteSet;
use safl_term::Checked;
use std::alloc::{AllocError, Global};

/// For each unit, the sites that call it.
pub fn peers(alloc: Global, c: &Checked) -> Result<Vec<SiteSet>, AllocError>
    ensures { IfOk result (λ v. ArePeers c.now.program c.now.program.sites v.items) }
{
    let mut peers = empty_sets(alloc, c.functions() as usize)?;
    let sites = c.sites();
    for done in 0..sites {
        let k = done + 1;
        peers[c.unit_for(k) as usize].insert(k);
    }
    Ok(peers)
}
