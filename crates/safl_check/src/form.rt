//! A checked function, from its definition.

ghost use Rattle.std.specs.Prelude.{◌≡◌, IfOk, length, map, string_bytes};
ghost use Rattle.safl_word.specs.Tokens.{IsSourceName};
ghost use Rattle.safl_term.specs.Tables.{BodyHasSlots};
ghost use Rattle.safl_term.specs.Slots.{HasSlots};
ghost use Rattle.safl_term.specs.Tree.{shown_term};
ghost use Rattle.safl_tree.specs.Shown.{shown_definition, shown_parameters};
ghost use Rattle.safl_tree.specs.Printable.{IsFormedDefinition, AreFormedParameters};
ghost use Rattle.safl_typing.specs.Forms.{shown_function, shown_param};
ghost use Rattle.safl_typing.specs.Heads.{slot_of, params_of};
ghost use Rattle.safl_typing.specs.Walk.{function};

use safl_term::{Function, Parameter, Term};
use safl_tree::{Def, Name, Param};
use safl_word::NoMemory;
use std::alloc::Global;

/// The checked form of a definition: a function of group `unit`, whose call sites are numbered from `first_site` on.
pub fn function_of(
    alloc: Global,
    def: &Def,
    unit: u32,
    first_site: u32,
    body: Term,
) -> Result<Function, NoMemory>
    requires formed { IsFormedDefinition (shown_definition def.now) }
    requires slots { HasSlots (length (params_of (shown_definition def.now))) body }
    ensures shown { IfOk result (λ f. shown_function f ≡ function unit first_site (shown_definition def.now) (shown_term body)) }
    ensures slots { IfOk result BodyHasSlots }
{
    let name = text_of(alloc, &def.name)?;
    let params = parameters_of(alloc, &def.params)?;
    Ok(Function {
        name,
        params,
        width: def.width,
        unit,
        first_site,
        body,
    })
}

// The parameters of a function, in order.
fn parameters_of(alloc: Global, params: &[Param]) -> Result<Vec<Parameter>, NoMemory>
    requires { AreFormedParameters (shown_parameters params.now) }
    ensures { IfOk result (λ all. map shown_param all.items ≡ map slot_of (shown_parameters params.now)) }
{
    let mut all = Vec::new(alloc);
    for param in params {
        let name = text_of(alloc, &param.name)?;
        all.push(Parameter {
            name,
            width: param.width,
        })?;
    }
    Ok(all)
}

#[tactic(auto, using(crate::proofs::NamesAsText::utf8_name))]
fn text_of(alloc: Global, name: &Name) -> Result<String, NoMemory>
    requires { IsSourceName name.now }
    ensures { IfOk result (λ text. string_bytes text ≡ name.now) }
{
    match std::str::from_utf8(name.bytes()) {
        Ok(text) => Ok(String::from_str(alloc, text)?),
        Err(_) => unreachable!(),
    }
}
