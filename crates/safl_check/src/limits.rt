//! Limits: E16 at the first place that passes one. Also E15, if the last definition is not `main`.

ghost use Rattle.std.specs.Prelude.{◌≡◌, ◌≤◌, length, map, IfOk};
ghost use Rattle.safl_word.specs.declared.fault.Rule.TheVariants as rules;
ghost use Rattle.safl_tree.specs.Shown.{shown_definitions, shown_parameters};
ghost use Rattle.safl_typing.specs.Heads.{heads};
ghost use Rattle.safl_word.specs.Limits.{bindings_max, functions_max, params_max};
ghost use Rattle.safl_typing.specs.PlainHeads.{shown_heads};
ghost use Rattle.safl_term.specs.Readiness.{or_else};
ghost use Rattle.safl_typing.specs.Walk.{fault_with, limit, limits_from, main_fault};
ghost use Rattle.safl_typing.specs.Rewriting.{excess};
ghost use Rattle.safl_check.specs.Parts.{sum_fault};

use crate::heads::next_unit;
use crate::nodes::measure;
use safl_tree::{Def, Param};
use safl_typing::heads::Heads;
use safl_word::limits::{BINDINGS_MAX, FUNCTIONS_MAX, NODES_MAX, PARAMS_MAX, SITES_MAX};
use safl_word::{Fault, NoMemory, Rule};
use std::alloc::Global;

const MAIN: &[u8] = b"main";

/// E16 at the first definition beyond the limit, if there are too many.
pub fn find_function_fault(defs: &[Def]) -> Option<Fault>
    ensures { result ≡ limit 1 functions_max (excess functions_max (map (λ d. d.place) (shown_definitions defs.now))) }
{
    let def = defs.get(FUNCTIONS_MAX)?;
    Some(past_limit(def.place, 1, FUNCTIONS_MAX as u32))
}

/// The first E16 of definitions that are not too many: for too many parameters, bindings, call sites or nodes.
pub fn find_limit_fault(
    alloc: Global,
    defs: &[Def],
    all_heads: &Heads,
) -> Result<Option<Fault>, NoMemory>
    requires few { length defs.now ≤ functions_max }
    requires heads { shown_heads all_heads.now ≡ heads (shown_definitions defs.now) }
    ensures { IfOk result (λ fault. fault ≡ limits_from (heads (shown_definitions defs.now)) 0 0 0 0 (shown_definitions defs.now)) }
{
    let mut unit = 0;
    let mut sites = 0;
    let mut nodes = 0;
    for (number, def) in defs.iter().enumerate() {
        unit = next_unit(number as u32, unit, def);
        let measures = measure(alloc, all_heads, unit, sites, nodes, &def.body)?;
        if let Some(fault) = find_list_fault(&def.params, measures.long_let) {
            return Ok(Some(fault));
        }
        sites = measures.sites;
        nodes = measures.nodes;
        if let Some(fault) = find_sum_fault(def.place, sites, nodes) {
            return Ok(Some(fault));
        }
    }
    Ok(None)
}

// E16 for too many parameters, or for too many bindings of a let.
fn find_list_fault(params: &[Param], long_let: Option<u32>) -> Option<Fault>
    ensures { result ≡ or_else (limit 2 params_max (excess params_max (map (λ p. p.place) (shown_parameters params.now)))) (limit 3 bindings_max long_let) }
{
    if let Some(param) = params.get(PARAMS_MAX) {
        return Some(past_limit(param.place, 2, PARAMS_MAX as u32));
    }
    let place = long_let?;
    Some(past_limit(place, 3, BINDINGS_MAX as u32))
}

// E16 at `place` for too many call sites or nodes up to the end of this definition.
fn find_sum_fault(place: u32, sites: u32, nodes: u32) -> Option<Fault>
    ensures { result ≡ sum_fault place sites nodes }
{
    if sites > SITES_MAX {
        Some(past_limit(place, 4, SITES_MAX))
    } else if nodes > NODES_MAX {
        Some(past_limit(place, 5, NODES_MAX))
    } else {
        None
    }
}

fn past_limit(place: u32, number: u32, value: u32) -> Fault
    ensures { result ≡ fault_with rules.E16 place number value }
{
    Fault::with(Rule::E16, place, number, value)
}

/// E15 at the last definition if it is not `main`, or at place 0 if there are no definitions.
pub fn find_main_fault(defs: &[Def]) -> Option<Fault>
    ensures { result ≡ main_fault (shown_definitions defs.now) }
{
    let Some(last) = defs.last() else {
        return Some(no_main(0));
    };
    if last.name.bytes() == MAIN {
        None
    } else {
        Some(no_main(last.place))
    }
}

fn no_main(place: u32) -> Fault
    ensures { result ≡ fault_with rules.E15 place 0 0 }
{
    Fault::new(Rule::E15, place)
}
