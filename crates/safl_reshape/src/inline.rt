//! Unfolding one call in the definitions of a program.

ghost use Rattle.std.specs.Prelude.{◌≡◌, IfOk, IfErr};
ghost use Rattle.safl_tree.specs.Shown.{shown_definitions};
ghost use Rattle.safl_typing.specs.Forms.{IsFormOf, shown_form};
ghost use Rattle.safl_reshape.specs.Reshaped.{unfolded};
ghost use Rattle.safl_reshape.specs.Refusals.{MayUnfold, RefusesUnfolding};

use crate::changes::Changes;
use crate::defs::change_defs;
use crate::error::ReshapeErr;
use crate::own::calls_own;
use safl_check::heads_of;
use safl_term::Checked;
use safl_tree::Def;
use std::alloc::Global;

/// The definitions with the call at a site replaced by the body of the called function.
pub fn unfolded_defs(
    alloc: Global,
    checked: &Checked,
    defs: &[Def],
    site: u32,
) -> Result<Vec<Def>, ReshapeErr>
    requires form { IsFormOf (shown_definitions defs.now) (shown_form checked.now) }
    ensures may { IfOk result (λ es. MayUnfold checked.now.program (shown_definitions defs.now) site) }
    ensures unfolded { IfOk result (λ es. shown_definitions es.items ≡ unfolded (shown_definitions defs.now) site) }
    ensures refused { IfErr result (RefusesUnfolding checked.now.program (shown_definitions defs.now) site) }
{
    let sites = checked.sites();
    if site == 0 || site > sites {
        return Err(ReshapeErr::NoSite);
    }
    let callee = checked.callee(site) as usize;
    let heads = heads_of(alloc, defs)?;
    let unit = heads.get(callee).unit;
    if calls_own(&heads, unit, &defs[callee].body) {
        return Err(ReshapeErr::Recursive);
    }
    let changes = Changes::Unfolding(defs);
    Ok(change_defs(alloc, &heads, &changes, site, defs)?)
}
