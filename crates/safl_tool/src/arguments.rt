//! The arguments of a run.

ghost use Rattle.std.specs.Prelude.{◌≡◌, IfOk, IfErr, map, string_bytes};
ghost use Rattle.safl_session.specs.Lines.{AreArguments};
ghost use Rattle.safl_tool.specs.Arguments.{RefusesArguments};
ghost use Rattle.safl_tool.specs.Refusals.{RefusesBy};

use crate::refusal::Refusal;
use safl_session::read_argument;
use safl_term::Checked;
use safl_word::Word;
use std::alloc::{AllocError, Global};

/// The words of the arguments for parameters of these widths. A wrong number of arguments is refused before anything
/// else.
pub fn read_arguments<'a>(
    alloc: Global,
    widths: &[u8],
    args: &[String],
) -> Result<Vec<Word>, Refusal<'a>>
    ensures read { IfOk result (λ words. AreArguments widths.now (map string_bytes args.now) words.items) }
    ensures refused { IfErr result (RefusesBy (RefusesArguments widths.now (map string_bytes args.now))) }
{
    if args.len() != widths.len() {
        return Err(Refusal::Count(widths.len(), args.len()));
    }
    let mut words = Vec::with_capacity(alloc, args.len())?;
    'arguments: for i in 0..args.len() {
        let word = match read_argument(widths[i], args[i].as_bytes()) {
            Some(word) => word,
            None => return Err(Refusal::Argument(i + 1, widths[i])),
        };
        let Ok(()) = words.push(word) else {
            return Err(Refusal::NoMemory);
        };
    }
    Ok(words)
}

/// The widths of main's parameters, in bits.
pub fn main_widths(alloc: Global, checked: &Checked) -> Result<Vec<u8>, AllocError>
    ensures { IfOk result (λ widths. widths.items ≡ checked.now.program.params checked.now.program.main) }
{
    let main = checked.functions() - 1;
    let mut widths = Vec::new(alloc);
    'params: for i in 0..checked.params(main) {
        widths.push(checked.param_width(main, i))?;
    }
    Ok(widths)
}
