//! Tables of the sites in reach of bodies.

ghost use Rattle.std.specs.Prelude.{◌≡◌, ℕ, suc, ◌<◌, length, IfOk};
ghost use Rattle.safl_sites.specs.Filling.{IsFilled};
ghost use Rattle.safl_sites.specs.SiteSets.{HasAt};

use crate::parallel::mark;
use crate::reach::reach;
use crate::site_set::SiteSet;
use safl_term::Checked;
use std::alloc::{AllocError, Global};

/// For each function, the sites in reach of its body; for each unit, those in reach of its members' bodies; and for
/// each site, those in reach of the parallel terms before it.
#[derive(Drop)]
pub struct Tables {
    pub bodies: Vec<SiteSet>,
    pub units: Vec<SiteSet>,
    pub after: Vec<SiteSet>,
}

/// A table of `count` empty sets.
pub fn empty_sets(alloc: Global, count: usize) -> Result<Vec<SiteSet>, AllocError>
    ensures count { IfOk result (λ v. length v.items ≡ count) }
    ensures empty { IfOk result (λ v. (i k : ℕ) → HasAt v.items i k → ⊥) }
{
    let empty = SiteSet::new();
    let sets = vec![in alloc; empty; count]?;
    Ok(sets)
}

/// Fills the tables. The unit of a called function is below that of its caller, so the bodies are taken in rising
/// order.
pub fn fill(alloc: Global, c: &Checked) -> Result<Tables, AllocError>
    ensures { IfOk result (λ t. IsFilled c.now.program c.now.program.functions t.bodies.items t.units.items t.after.items) }
{
    let functions = c.functions();
    let mut bodies = empty_sets(alloc, functions as usize)?;
    let mut units = empty_sets(alloc, functions as usize)?;
    let mut after = empty_sets(alloc, c.sites() as usize + 1)?;
    for f in 0..functions {
        fill_body(c, f, &mut bodies, &mut units, &mut after);
    }
    Ok(Tables {
        bodies,
        units,
        after,
    })
}

fn fill_body(
    c: &Checked,
    f: u32,
    bodies: &mut [SiteSet],
    units: &mut [SiteSet],
    after: &mut [SiteSet],
)
    requires within { f < c.now.program.functions }
    requires filled { IsFilled c.now.program f bodies.old units.old after.old }
    ensures { IsFilled c.now.program (suc f) bodies.new units.new after.new }
{
    let body = c.body(f);
    let mut set = SiteSet::new();
    reach(c, units, body, &mut set);
    mark(c, units, body, &SiteSet::new(), after);
    units[c.unit(f) as usize].union(&set);
    bodies[f as usize] = set;
}
