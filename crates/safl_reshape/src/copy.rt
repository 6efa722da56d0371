//! Copying a function for one of its calls.

ghost use Rattle.std.specs.Prelude.{◌≡◌, ◌<◌, ◌≤◌, Some, length, IfOk, OnOk, IfErr};
ghost use Rattle.safl_word.specs.Limits.{functions_max};
ghost use Rattle.safl_term.specs.Checked.{IsChecked};
ghost use Rattle.safl_tree.specs.Shown.{shown_definition, shown_definitions};
ghost use Rattle.safl_typing.specs.Forms.{IsFormOf, shown_form};
ghost use Rattle.safl_typing.specs.PlainHeads.{shown_heads};
ghost use Rattle.safl_reshape.specs.Reshaped.{copy_name, copy_of, copied, IsCopiedUnder};
ghost use Rattle.safl_reshape.specs.Refusals.{MayCopy, RefusesCopy, is_grouped, is_taken};

use crate::change::change;
use crate::changes::Changes;
use crate::defs::{change_defs, copy_params};
use crate::error::ReshapeErr;
use safl_check::heads_of;
use safl_check::laws::forms_are_numbered_law;
use safl_term::Checked;
use safl_tree::{Def, Name, Program};
use safl_typing::heads::Heads;
use safl_word::limits::NAME_MAX;
use safl_word::{NoMemory, Raw, push_decimal};
use std::alloc::Global;

/// The definitions with the function that a site calls copied for that call.
pub fn copied_defs(
    alloc: Global,
    checked: &Checked,
    defs: &[Def],
    site: u32,
) -> Result<Vec<Def>, ReshapeErr>
    requires form { IsFormOf (shown_definitions defs.now) (shown_form checked.now) }
    ensures checked { OnOk result (IsChecked checked.now) }
    ensures may { IfOk result (λ es. MayCopy checked.now.program (shown_definitions defs.now) site) }
    ensures copied { IfOk result (λ es. shown_definitions es.items ≡ copied (shown_definitions defs.now) site (checked.now.program.callee site)) }
    ensures refused { IfErr result (RefusesCopy checked.now.program (shown_definitions defs.now) site) }
{
    forms_are_numbered_law();
    let sites = checked.sites();
    if site == 0 || site > sites {
        return Err(ReshapeErr::NoSite);
    }
    let callee = checked.callee(site) as usize;
    if is_grouped(defs, callee) {
        return Err(ReshapeErr::Grouped);
    }
    let name = name_for(alloc, &defs[callee].name, site)?;
    if name.bytes().len() > NAME_MAX {
        return Err(ReshapeErr::NameLong);
    }
    if is_taken(defs, &name) {
        return Err(ReshapeErr::NameTaken);
    }
    Ok(copy_function(alloc, defs, callee, site, name)?)
}

// Whether the group of a function has two or more members.
fn is_grouped(defs: &[Def], number: usize) -> bool
    requires { number < length defs.now }
    ensures { result ≡ is_grouped (shown_definitions defs.now) number }
{
    if defs[number].joined {
        return true;
    }
    match defs.get(number + 1) {
        Some(next) => next.joined,
        None => false,
    }
}

// Whether a function has this name.
fn is_taken(defs: &[Def], name: &Name) -> bool
    ensures { result ≡ is_taken (shown_definitions defs.now) name.now }
{
    for def in defs {
        if name.bytes() == def.name.bytes() {
            return true;
        }
    }
    false
}

// The name of the copy: that of the function, `_` and the number of the site.
fn name_for(alloc: Global, name: &Name, site: u32) -> Result<Name, NoMemory>
    ensures { IfOk result (λ new. new ≡ copy_name name.now site) }
{
    let mut bytes = Vec::new(alloc);
    bytes.extend_from_slice(name.bytes())?;
    bytes.push(b'_')?;
    push_decimal(Raw::from(site), &mut bytes)?;
    Name::new(alloc, bytes.as_slice())
}

// The definitions with one function copied under a new name, for the call of this site.
fn copy_function(
    alloc: Global,
    defs: &[Def],
    number: usize,
    site: u32,
    name: Name,
) -> Result<Vec<Def>, NoMemory>
    requires few { length defs.now ≤ functions_max }
    requires within { number < length defs.now }
    ensures { IfOk result (λ es. IsCopiedUnder name (shown_definitions defs.now) site number (shown_definitions es.items)) }
{
    let all_heads = heads_of(alloc, defs)?;
    let copy = copy_def(alloc, &all_heads, number as u32, &defs[number], &name)?;
    let changes = Changes::Copying(name);
    let mut all = change_defs(alloc, &all_heads, &changes, site, defs)?;
    all.insert(number + 1, copy)?;
    Ok(all)
}

// The copy of a definition under a new name. Its calls of itself become calls of the copy.
fn copy_def(
    alloc: Global,
    all_heads: &Heads,
    number: u32,
    def: &Def,
    name: &Name,
) -> Result<Def, NoMemory>
    ensures { IfOk result (λ d. shown_definition d ≡ copy_of (shown_heads all_heads.now) number name.now (shown_definition def.now)) }
{
    let changes = Changes::Own(Name::new(alloc, name.bytes())?);
    let mut left = 0;
    let body = change(alloc, all_heads, number, &changes, &mut left, &def.body)?;
    let name = Name::new(alloc, name.bytes())?;
    let params = copy_params(alloc, &def.params)?;
    Ok(Def {
        joined: false,
        place: def.place,
        name,
        params,
        width: def.width,
        body,
    })
}
