//! A line of a script.

ghost use Rattle.std.specs.Prelude.{◌<◌, ◌^◌, OnOk, IfErr, IfSome, IfNone, length};
ghost use Rattle.safl_word.specs.Words.{Word};
ghost use Rattle.safl_session.specs.Lines.{IsArgument, AppendsCall, RefusesLine};

use crate::cutting::next_word;
use crate::script::ScriptErr;
use safl_word::{Word, argument};

/// Appends the words of line `number` of a script, for inputs of these widths.
pub fn read_line(
    words: &mut Vec<Word>,
    number: u32,
    line: &[u8],
    widths: &[u8],
) -> Result<(), ScriptErr>
    requires { length line.now < 2 ^ 32 }
    ensures read { OnOk result (AppendsCall widths.now line.now words.old.items words.new.items) }
    ensures refused { IfErr result (RefusesLine widths.now line.now number) }
{
    let mut given = 0;
    let mut misread = None;
    let mut rest = line;
    'words: while let Some((word, behind)) = next_word(rest) {
        if misread.is_none() && (given as usize) < widths.len() {
            match read_argument(widths[given as usize], word) {
                None => misread = Some(given + 1),
                Some(argument) => {
                    let Ok(()) = words.push(argument) else {
                        return Err(ScriptErr::NoMemory);
                    };
                }
            }
        }
        given += 1;
        rest = behind;
    }
    if given as usize != widths.len() {
        return Err(ScriptErr::Count(number, given));
    }
    match misread {
        Some(place) => Err(ScriptErr::Argument(number, place)),
        None => Ok(()),
    }
}

/// The word of an argument for a parameter of this width. None exactly if the text is not a numeral of a number that
/// fits the width.
pub fn read_argument(width: u8, text: &[u8]) -> Option<Word>
    ensures read { IfSome result (IsArgument width text.now) }
    ensures none { IfNone result ((v : Word) → IsArgument width text.now v → ⊥) }
{
    match argument(text) {
        Some(number) => Word::new(width, number),
        None => None,
    }
}
