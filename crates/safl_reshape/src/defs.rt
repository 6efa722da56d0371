//! Changing calls in definitions.

ghost use Rattle.std.specs.Prelude.{◌≡◌, ◌≤◌, length, IfOk};
ghost use Rattle.safl_word.specs.Limits.{functions_max};
ghost use Rattle.safl_tree.specs.Shown.{shown_tree, shown_definition, shown_definitions, shown_parameters};
ghost use Rattle.safl_typing.specs.Heads.{heads};
ghost use Rattle.safl_typing.specs.PlainHeads.{shown_heads};
ghost use Rattle.safl_reshape.specs.Changed.{with_body, changed_program};
ghost use Rattle.safl_reshape.specs.Lists.{change_of};

use crate::change::change;
use crate::changes::Changes;
use safl_check::next_unit;
use safl_tree::{Def, Expr, Name, Param};
use safl_typing::heads::Heads;
use safl_word::NoMemory;
use std::alloc::Global;

/// The definitions with calls changed. `site` is the one that is meant.
pub fn change_defs(
    alloc: Global,
    all_heads: &Heads,
    changes: &Changes<'_>,
    site: u32,
    defs: &[Def],
) -> Result<Vec<Def>, NoMemory>
    requires few { length defs.now ≤ functions_max }
    requires heads { shown_heads all_heads.now ≡ heads (shown_definitions defs.now) }
    ensures { IfOk result (λ all. shown_definitions all.items ≡ changed_program (change_of site changes.now) (shown_definitions defs.now)) }
{
    let mut all = Vec::new(alloc);
    let mut unit = 0;
    let mut left = site;
    for number in 0..defs.len() {
        let def = &defs[number];
        unit = next_unit(number as u32, unit, def);
        let body = change(alloc, all_heads, unit, changes, &mut left, &def.body)?;
        let next = with_other_body(alloc, def, body)?;
        all.push(next)?;
    }
    Ok(all)
}

// The definition with another body.
fn with_other_body(alloc: Global, def: &Def, body: Expr) -> Result<Def, NoMemory>
    ensures { IfOk result (λ d. shown_definition d ≡ with_body (shown_definition def.now) (shown_tree body)) }
{
    let name = Name::new(alloc, def.name.bytes())?;
    let params = copy_params(alloc, &def.params)?;
    Ok(Def {
        joined: def.joined,
        place: def.place,
        name,
        params,
        width: def.width,
        body,
    })
}

/// A copy of parameters.
pub fn copy_params(alloc: Global, params: &[Param]) -> Result<Vec<Param>, NoMemory>
    ensures { IfOk result (λ all. shown_parameters all.items ≡ shown_parameters params.now) }
{
    let mut all = Vec::new(alloc);
    for param in params {
        let name = Name::new(alloc, param.name.bytes())?;
        all.push(Param {
            place: param.place,
            name,
            width: param.width,
        })?;
    }
    Ok(all)
}
