//! The functions of a program, in the order of the text.

ghost use Rattle.std.specs.Prelude.{◌≡◌, ◌↔◌, [], None, IfOk, IsTrue};
ghost use Rattle.std.specs.List.{All};
ghost use Rattle.safl_term.specs.Tables.{BodyHasSlots};
ghost use Rattle.safl_tree.specs.Shown.{shown_definition, shown_definitions};
ghost use Rattle.safl_tree.specs.Printable.{IsFormedDefinition, IsFormedProgram};
ghost use Rattle.safl_typing.specs.Forms.{AreShallow};
ghost use Rattle.safl_typing.specs.Heads.{heads, params_of};
ghost use Rattle.safl_typing.specs.Marks.{IsMarked};
ghost use Rattle.safl_typing.specs.MayWalk.{MayCheck};
ghost use Rattle.safl_typing.specs.Plain.{shown_expression};
ghost use Rattle.safl_typing.specs.PlainHeads.{shown_heads, shown_slots, known};
ghost use Rattle.safl_typing.specs.Walk.{limits, functions_from};
ghost use Rattle.safl_check.specs.Answers.{SaysFunctions};
ghost use Rattle.safl_check.specs.Functions.{SaysFunction, checked_with_head};

use crate::form::function_of;
use crate::groups::find_group_fault;
use safl_term::Function;
use safl_tree::{Def, is_within};
use safl_typing::checking::check_expression;
use safl_typing::context::Context;
use safl_typing::expression::Expression;
use safl_typing::heads::{Head, Heads};
use safl_typing::marks::add_sites;
use safl_typing::rewrite::rewrite;
use safl_typing::scope::Scope;
use safl_typing::typed::{CheckErr, Wanted};
use safl_word::limits::DEPTH_MAX;
use std::alloc::Global;

/// Whether no body is deeper than `DEPTH_MAX`.
pub fn are_shallow(defs: &[Def]) -> bool
    ensures { IsTrue result ↔ AreShallow (shown_definitions defs.now) }
{
    for def in defs {
        if !is_within(&def.body, DEPTH_MAX) {
            return false;
        }
    }
    true
}

/// The checked functions of definitions that pass no limit, or the first fault of a head or a body.
pub fn check_functions(
    alloc: Global,
    defs: &[Def],
    all_heads: &Heads,
) -> Result<Vec<Function>, CheckErr>
    requires formed { IsFormedProgram (shown_definitions defs.now) }
    requires heads { shown_heads all_heads.now ≡ heads (shown_definitions defs.now) }
    requires within { limits (shown_definitions defs.now) ≡ None }
    requires shallow { AreShallow (shown_definitions defs.now) }
    ensures says { SaysFunctions result (functions_from (heads (shown_definitions defs.now)) [] 0 0 1 (shown_definitions defs.now)) }
    ensures slots { IfOk result (λ fs. All BodyHasSlots fs.items) }
{
    let mut functions = Vec::new(alloc);
    let mut first_site = 1;
    for number in 0..defs.len() {
        if let Some(fault) = find_group_fault(defs, all_heads, number) {
            return Err(CheckErr::Refused(fault));
        }
        let def = &defs[number];
        let head = all_heads.get(number);
        let body = rewrite(alloc, all_heads, head.unit, &def.body)?;
        let function = check_function(alloc, all_heads, def, head, first_site, &body)?;
        functions.push(function)?;
        first_site = add_sites(first_site, &body);
    }
    Ok(functions)
}

// Checks a definition against its own head. Its call sites are numbered from `first_site` on.
fn check_function(
    alloc: Global,
    heads: &Heads,
    def: &Def,
    head: &Head,
    first_site: u32,
    body: &Expression,
) -> Result<Function, CheckErr>
    requires formed { IsFormedDefinition (shown_definition def.now) }
    requires params { shown_slots head.now.params.items ≡ params_of (shown_definition def.now) }
    requires able { MayCheck heads.now head.now.unit (shown_slots head.now.params.items) first_site (shown_expression body.now) }
    requires marked { IsMarked (known heads.now head.now.unit) body.now }
    ensures says { SaysFunction result (checked_with_head heads.now head.now first_site def.now body.now) }
    ensures slots { IfOk result BodyHasSlots }
{
    let unit = head.unit;
    let context = Context { alloc, heads, unit };
    let scope = Scope::Params(&head.params);
    let wanted = Wanted::Exactly(def.width);
    let typed = check_expression(&context, &scope, true, first_site, wanted, body)?;
    Ok(function_of(alloc, def, unit, first_site, typed.term)?)
}
