//! What is printed.

ghost use Rattle.std.specs.Prelude.{◌≡◌, ◌++◌, OnOk};
ghost use Rattle.safl_timing.specs.Lines.{figure, late_line, timing_lines, yes_or_no};

use safl_span::Figures;
use safl_word::{NoMemory, Raw, push_decimal};

/// Appends a line for each of the figures.
pub fn push_timing(text: &mut Vec<u8>, f: Figures) -> Result<(), NoMemory>
    ensures { OnOk result (text.new.items ≡ text.old.items ++ timing_lines f.word.bits f.calls f.loops f.span f.latest f.exact) }
{
    push_figure(text, b"result ", f.word.bits())?;
    push_figure(text, b"calls ", Raw::from(f.calls))?;
    push_figure(text, b"tail calls ", Raw::from(f.loops))?;
    push_figure(text, b"span ", Raw::from(f.span))?;
    push_figure(text, b"latest ", Raw::from(f.latest))?;
    text.extend_from_slice(b"exact ")?;
    text.extend_from_slice(yes_or_no(f.exact))?;
    text.extend_from_slice(b"\n")?;
    Ok(())
}

// Appends a line with a name and a number.
fn push_figure(text: &mut Vec<u8>, name: &[u8], number: Raw) -> Result<(), NoMemory>
    ensures { OnOk result (text.new.items ≡ text.old.items ++ figure name.now number) }
{
    text.extend_from_slice(name)?;
    push_decimal(number, text)?;
    text.extend_from_slice(b"\n")?;
    Ok(())
}

fn yes_or_no(exact: bool) -> &'static [u8]
    ensures { result.now ≡ yes_or_no exact }
{
    if exact { b"yes" } else { b"no" }
}

/// Appends the line that says that the calls of the budget did not suffice.
pub fn push_late(text: &mut Vec<u8>, budget: u32) -> Result<(), NoMemory>
    ensures { OnOk result (text.new.items ≡ text.old.items ++ late_line budget) }
{
    text.extend_from_slice(b"no result in ")?;
    push_decimal(Raw::from(budget), text)?;
    text.extend_from_slice(b" calls\n")?;
    Ok(())
}
