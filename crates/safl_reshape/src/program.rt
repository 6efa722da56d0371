//! Reshaping whole programs.

ghost use Rattle.std.specs.Prelude.{IfOk, IfErr};
ghost use Rattle.safl_tree.specs.Shown.{shown_program};
ghost use Rattle.safl_tree.specs.Printable.{IsPrintable};
ghost use Rattle.safl_typing.specs.Forms.{IsFormOf, shown_form};
ghost use Rattle.safl_reshape.specs.Refusals.{CopyRefused, IsCopied, GivesAlike, UnfoldingRefused, IsUnfolded, GivesSparing};
ghost use Rattle.safl_typing.specs.Forms.{HasForm};

use crate::copy::copied_defs;
use crate::error::ReshapeErr;
use crate::inline::unfolded_defs;
use crate::laws::{copy_law, unfolding_law};
use crate::limits::look_at_limits;
use safl_check::laws::forms_are_numbered_law;
use safl_check::{CheckErr, check_defs};
use safl_term::Checked;
use safl_tree::laws::{printed_law, shallow_law};
use safl_tree::{Program, levels_ok};
use safl_typing::laws::{fault_or_form_law, one_form_law};
use safl_word::NoMemory;
use std::alloc::Global;

/// The program with the function that a site calls copied for that call. The copy comes right after the function; its
/// name is the function's, `_` and the number of the site. The new program has a form, and main gives the same words in
/// as many calls. If several refusals apply, the error is the first of them.
pub fn copy_site(alloc: Global, program: Program, site: u32) -> Result<Program, ReshapeErr>
    requires printable { IsPrintable (shown_program program) }
    requires form { HasForm (shown_program program) }
    ensures copied { IfOk result (λ q. IsCopied (shown_program program) site (shown_program q)) }
    ensures printable { IfOk result (λ q. IsPrintable (shown_program q)) }
    ensures alike { IfOk result (λ q. GivesAlike (shown_program program) (shown_program q)) }
    ensures refused { IfErr result (CopyRefused (shown_program program) site) }
{
    let checked = checked_of(alloc, &program)?;
    copy_checked(alloc, &program, &checked, site)
}

/// Does what `copy_site` does, for a program that has been checked.
pub fn copy_checked(
    alloc: Global,
    program: &Program,
    checked: &Checked,
    site: u32,
) -> Result<Program, ReshapeErr>
    requires printable { IsPrintable (shown_program program.now) }
    requires form { IsFormOf (shown_program program.now) (shown_form checked.now) }
    ensures copied { IfOk result (λ q. IsCopied (shown_program program.now) site (shown_program q)) }
    ensures printable { IfOk result (λ q. IsPrintable (shown_program q)) }
    ensures alike { IfOk result (λ q. GivesAlike (shown_program program.now) (shown_program q)) }
    ensures refused { IfErr result (CopyRefused (shown_program program.now) site) }
{
    forms_are_numbered_law();
    one_form_law();
    copy_law();
    let defs = copied_defs(alloc, checked, &program.defs, site)?;
    look_at_limits(alloc, &defs)?;
    let copy = Program { defs };
    if !levels_ok(&copy) {
        return Err(ReshapeErr::TooDeep);
    }
    Ok(copy)
}

/// The program with the call at a site replaced by `let r:w = B in r`. Here B is the body of the called function under
/// a let of its parameters, and w is the function's width. The new program has a form, and main gives the same words,
/// in one call less each time that it made this call. If several refusals apply, the error is the first of them.
pub fn unfold_site(alloc: Global, program: Program, site: u32) -> Result<Program, ReshapeErr>
    requires printable { IsPrintable (shown_program program) }
    requires form { HasForm (shown_program program) }
    ensures unfolded { IfOk result (λ q. IsUnfolded (shown_program program) site (shown_program q)) }
    ensures printable { IfOk result (λ q. IsPrintable (shown_program q)) }
    ensures sparing { IfOk result (λ q. GivesSparing site (shown_program program) (shown_program q)) }
    ensures refused { IfErr result (UnfoldingRefused (shown_program program) site) }
{
    let checked = checked_of(alloc, &program)?;
    unfold_checked(alloc, &program, &checked, site)
}

/// Does what `unfold_site` does, for a program that has been checked.
pub fn unfold_checked(
    alloc: Global,
    program: &Program,
    checked: &Checked,
    site: u32,
) -> Result<Program, ReshapeErr>
    requires printable { IsPrintable (shown_program program.now) }
    requires form { IsFormOf (shown_program program.now) (shown_form checked.now) }
    ensures unfolded { IfOk result (λ q. IsUnfolded (shown_program program.now) site (shown_program q)) }
    ensures printable { IfOk result (λ q. IsPrintable (shown_program q)) }
    ensures sparing { IfOk result (λ q. GivesSparing site (shown_program program.now) (shown_program q)) }
    ensures refused { IfErr result (UnfoldingRefused (shown_program program.now) site) }
{
    forms_are_numbered_law();
    one_form_law();
    unfolding_law();
    let defs = unfolded_defs(alloc, checked, &program.defs, site)?;
    look_at_limits(alloc, &defs)?;
    let unfolded = Program { defs };
    if !levels_ok(&unfolded) {
        return Err(ReshapeErr::TooDeep);
    }
    Ok(unfolded)
}

// The checked form of a program that is printable and has a form.
#[tactic(auto, using(crate::proofs::Checkable::never_refused, crate::proofs::Checkable::never_deep))]
fn checked_of(alloc: Global, program: &Program) -> Result<Checked, NoMemory>
    requires printable { IsPrintable (shown_program program.now) }
    requires form { HasForm (shown_program program.now) }
    ensures form { IfOk result (λ c. IsFormOf (shown_program program.now) (shown_form c)) }
{
    fault_or_form_law();
    printed_law();
    shallow_law();
    match check_defs(alloc, &program.defs) {
        Ok(checked) => Ok(checked),
        Err(CheckErr::NoMemory) => Err(NoMemory),
        Err(CheckErr::TooDeep) => unreachable!(),
        Err(CheckErr::Refused(_)) => unreachable!(),
    }
}
