//! The heads of all definitions, which are known before any body is checked.

ghost use Rattle.std.specs.Prelude.{◌≡◌, ◌≤◌, length, map, IfOk};
ghost use Rattle.safl_word.specs.Limits.{functions_max};
ghost use Rattle.safl_tree.specs.Shown.{shown_definition, shown_definitions, shown_parameters};
ghost use Rattle.safl_typing.specs.Heads.{slot_of, unit_of, head_of, heads};
ghost use Rattle.safl_typing.specs.PlainHeads.{shown_slots, shown_head, shown_heads};

use safl_tree::{Def, Name, Param};
use safl_typing::heads::{Head, Heads, Slot};
use safl_word::NoMemory;
use std::alloc::Global;

/// The heads of at most 1,000 definitions.
pub fn heads_of(alloc: Global, defs: &[Def]) -> Result<Heads, NoMemory>
    requires { length defs.now ≤ functions_max }
    ensures { IfOk result (λ all. shown_heads all ≡ heads (shown_definitions defs.now)) }
{
    let list = make_heads(alloc, defs)?;
    Ok(Heads::new(alloc, list)?)
}

/// The group of definition `number`. `unit` is the group of the definition before it.
pub fn next_unit(number: u32, unit: u32, def: &Def) -> u32
    ensures { result ≡ unit_of number unit (shown_definition def.now) }
{
    if def.joined { unit } else { number }
}

fn make_heads(alloc: Global, defs: &[Def]) -> Result<Vec<Head>, NoMemory>
    requires { length defs.now ≤ functions_max }
    ensures { IfOk result (λ all. shown_heads all.items ≡ heads (shown_definitions defs.now)) }
{
    let mut all = Vec::new(alloc);
    let mut unit = 0;
    for (number, def) in defs.iter().enumerate() {
        unit = next_unit(number as u32, unit, def);
        let head = make_head(alloc, unit, def)?;
        all.push(head)?;
    }
    Ok(all)
}

fn make_head(alloc: Global, unit: u32, def: &Def) -> Result<Head, NoMemory>
    ensures { IfOk result (λ head. shown_head head ≡ head_of unit (shown_definition def.now)) }
{
    let name = Name::new(alloc, def.name.bytes())?;
    let params = make_slots(alloc, &def.params)?;
    Ok(Head {
        name,
        params,
        width: def.width,
        unit,
    })
}

fn make_slots(alloc: Global, params: &[Param]) -> Result<Vec<Slot>, NoMemory>
    ensures { IfOk result (λ all. shown_slots all.items ≡ map slot_of (shown_parameters params.now)) }
{
    let mut all = Vec::new(alloc);
    for param in params {
        let name = Name::new(alloc, param.name.bytes())?;
        all.push(Slot {
            name,
            width: param.width,
        })?;
    }
    Ok(all)
}
