//! Scripts: a call on each line.

ghost use Rattle.std.specs.Prelude.{◌≡◌, ◌<◌, ◌^◌, IfOk, IfErr, Some, length, slice_get};
ghost use Rattle.safl_session.specs.Scripts.{IsScript, RefusesScript};

use crate::cutting::cut;
use crate::line::read_line;
use safl_word::Word;
use std::alloc::Global;
use std::marker::Model;

/// Why a script is refused. Lines and arguments are counted from 1.
#[derive(Clone, Copy, Debug, PartialEq, Eq)]
pub enum ScriptErr {
    /// A line has the wrong number of words: the line, and how many words it has.
    Count(u32, u32),
    /// A line has the right number of words, but one of them does not fit its width: the line, and the first such word.
    /// The word is not 1 to 39 digits of a number below 2 to the width.
    Argument(u32, u32),
    NoMemory,
}

/// The calls of a script, which all have the same number of words. The words of all calls are in one list.
#[derive(Drop)]
pub struct Script {
    words: Vec<Word>,
    arity: usize,
    calls: usize,
}

impl Model for Script {
    ghost use Rattle.std.specs.Prelude.{List};
    ghost use Rattle.safl_word.specs.Words.{Word};

    ghost Value = { List (List Word) };

    ghost use Rattle.std.specs.Prelude.{◌≡◌, ◌*◌, length};
    ghost use Rattle.safl_session.specs.Scripts.{calls_of};

    ghost view = { λ s. calls_of s.calls s.arity s.words.items };

    ghost invariant = { λ s. length s.words.items ≡ s.calls * s.arity };
}

impl Script {
    ghost use Rattle.std.specs.Prelude.{◌≡◌, ◌<◌, Some, length, slice_get};

    /// The number of calls.
    pub fn len(&self) -> usize
        ensures { result ≡ length self.now }
    {
        self.calls
    }

    /// The words of call `call`, counted from 0.
    pub fn words(&self, call: usize) -> &[Word]
        requires { call < length self.now }
        ensures { slice_get self.now call ≡ Some result.now }
    {
        let start = call * self.arity;
        &self.words[start..start + self.arity]
    }
}

/// The calls of a script, for inputs of these widths in bits: a call for each line, with a word for each width.
///
/// Lines end with a line feed; a last line without one counts if it is not empty. The words of a line are its longest
/// pieces without spaces, so an empty line and a line of spaces are calls without arguments. The error is that of the
/// first faulty line. Time is linear in the bytes.
pub fn read_script(alloc: Global, bytes: &[u8], widths: &[u8]) -> Result<Script, ScriptErr>
    requires { length bytes.now < 2 ^ 32 }
    ensures read { IfOk result (IsScript widths.now bytes.now) }
    ensures refused { IfErr result (RefusesScript widths.now bytes.now) }
{
    let mut words = Vec::new(alloc);
    let mut calls = 0;
    let mut rest = bytes;
    'lines: while !rest.is_empty() {
        let (line, behind) = cut(rest, b'\n');
        match read_line(&mut words, calls as u32 + 1, line, widths) {
            Ok(()) => {}
            Err(refused) => return Err(refused),
        }
        calls += 1;
        rest = behind;
    }
    Ok(Script {
        words,
        arity: widths.len(),
        calls,
    })
}
