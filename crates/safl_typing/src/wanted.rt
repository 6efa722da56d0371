//! At which widths operands and arguments are wanted.

ghost use Rattle.std.specs.Prelude.{◌≡◌, IfOk, map};
ghost use Rattle.safl_typing.specs.Typing.{widths_of};
ghost use Rattle.safl_typing.specs.Walk.{exactly};
ghost use Rattle.safl_typing.specs.PlainHeads.{shown_slots};
ghost use Rattle.safl_typing.specs.PlainTyped.{shown_wanted};
ghost use Rattle.safl_typing.specs.Checking.{AreWanted};

use crate::expression::Expression;
use crate::heads::Slot;
use crate::marks::is_flexible;
use crate::typed::{Wanted, as_operand};
use std::alloc::{AllocError, Global};

/// Each operand is found, but a flexible amount of a shift has the width of what is shifted.
pub fn wanted_operands(
    alloc: Global,
    shifted: Option<u8>,
    operands: &[Expression],
) -> Result<Vec<Wanted>, AllocError>
    ensures { IfOk result (λ all. AreWanted shifted operands.now all.items) }
{
    let mut all = Vec::new(alloc);
    for operand in operands {
        let flexible = is_flexible(operand);
        let wanted = as_operand(shifted, flexible);
        all.push(wanted)?;
    }
    Ok(all)
}

/// Each argument has its parameter's width.
pub fn wanted_arguments(alloc: Global, params: &[Slot]) -> Result<Vec<Wanted>, AllocError>
    ensures { IfOk result (λ all. map shown_wanted all.items ≡ exactly (widths_of (shown_slots params.now))) }
{
    let mut all = Vec::new(alloc);
    for param in params {
        all.push(Wanted::Exactly(param.width))?;
    }
    Ok(all)
}
