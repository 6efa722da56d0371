//! From a program's tree to its numbered form.

ghost use Rattle.std.specs.Prelude.{◌≡◌, [], None, Ok, map, IfOk, OnOk, IfErr};
ghost use Rattle.std.specs.List.{All};
ghost use Rattle.safl_term.specs.Checked.{IsChecked};
ghost use Rattle.safl_term.specs.Tables.{BodyHasSlots};
ghost use Rattle.safl_tree.specs.Shown.{shown_definitions, shown_program};
ghost use Rattle.safl_tree.specs.Printable.{IsFormedProgram};
ghost use Rattle.safl_typing.specs.Heads.{heads};
ghost use Rattle.safl_typing.specs.Forms.{IsFormOf, AreShallow, shown_form, shown_function};
ghost use Rattle.safl_typing.specs.PlainHeads.{shown_heads};
ghost use Rattle.safl_typing.specs.Walk.{limits, functions_from};
ghost use Rattle.safl_check.specs.Answers.{RefusesProgram, RefusesLimits, RefusesShallow, IsTooDeep, FindsTooDeep};

use crate::functions::{are_shallow, check_functions};
use crate::heads::heads_of;
use crate::limits::{find_function_fault, find_limit_fault, find_main_fault};
use crate::sites::sites_of;
use safl_term::{Checked, Function};
use safl_tree::{Def, Program};
use safl_typing::heads::Heads;
use safl_typing::laws::{forms_are_checked_law, walk_law};
use safl_typing::typed::CheckErr;
use std::alloc::Global;

/// The checked program of a tree: functions are numbered from 0 and call sites from 1, in the order of the text.
/// `Refused` has the first fault of E05 to E16 in the order of checking; it comes exactly if the program has no
/// numbered form. `TooDeep` comes if no limit is passed and a body is more than 2,000 deep; a source's bodies are at
/// most 1,100 deep.
pub fn check(alloc: Global, program: Program) -> Result<Checked, CheckErr>
    requires { IsFormedProgram (shown_program program) }
    ensures form { IfOk result (λ c. IsFormOf (shown_program program) (shown_form c)) }
    ensures checked { IfOk result IsChecked }
    ensures shallow { OnOk result (AreShallow (shown_program program)) }
    ensures refused { IfErr result (RefusesProgram (shown_program program)) }
    ensures deep { IsTooDeep (shown_program program) → FindsTooDeep result }
{
    check_defs(alloc, &program.defs)
}

/// The checked program of these definitions, as `check` gives it. They are only read.
pub fn check_defs(alloc: Global, defs: &[Def]) -> Result<Checked, CheckErr>
    requires { IsFormedProgram (shown_definitions defs.now) }
    ensures form { IfOk result (λ c. IsFormOf (shown_definitions defs.now) (shown_form c)) }
    ensures checked { IfOk result IsChecked }
    ensures shallow { OnOk result (AreShallow (shown_definitions defs.now)) }
    ensures refused { IfErr result (RefusesProgram (shown_definitions defs.now)) }
    ensures deep { IsTooDeep (shown_definitions defs.now) → FindsTooDeep result }
{
    let heads = heads_within(alloc, defs)?;
    if !are_shallow(defs) {
        return Err(CheckErr::TooDeep);
    }
    let functions = check_functions(alloc, defs, &heads)?;
    checked_of(alloc, defs, functions)
}

// The heads of the definitions. Limits are checked before heads.
fn heads_within(alloc: Global, defs: &[Def]) -> Result<Heads, CheckErr>
    ensures heads { IfOk result (λ all. shown_heads all ≡ heads (shown_definitions defs.now)) }
    ensures within { OnOk result (limits (shown_definitions defs.now) ≡ None) }
    ensures refused { IfErr result (RefusesLimits (shown_definitions defs.now)) }
{
    if let Some(fault) = find_function_fault(defs) {
        return Err(CheckErr::Refused(fault));
    }
    let heads = heads_of(alloc, defs)?;
    if let Some(fault) = find_limit_fault(alloc, defs, &heads)? {
        return Err(CheckErr::Refused(fault));
    }
    Ok(heads)
}

// The program of checked functions. The last one is `main`.
fn checked_of(alloc: Global, defs: &[Def], functions: Vec<Function>) -> Result<Checked, CheckErr>
    requires formed { IsFormedProgram (shown_definitions defs.now) }
    requires within { limits (shown_definitions defs.now) ≡ None }
    requires shallow { AreShallow (shown_definitions defs.now) }
    requires functions { functions_from (heads (shown_definitions defs.now)) [] 0 0 1 (shown_definitions defs.now) ≡ Ok (map shown_function functions.items) }
    requires slots { All BodyHasSlots functions.items }
    ensures form { IfOk result (λ c. IsFormOf (shown_definitions defs.now) (shown_form c)) }
    ensures checked { IfOk result IsChecked }
    ensures refused { IfErr result (RefusesShallow (shown_definitions defs.now)) }
{
    if let Some(fault) = find_main_fault(defs) {
        return Err(CheckErr::Refused(fault));
    }
    walk_law();
    forms_are_checked_law();
    let sites = sites_of(alloc, &functions)?;
    Ok(Checked::new(functions, sites))
}
