//! The lines that report why a Verilog file is refused.

ghost use Rattle.std.specs.Prelude.{◌≡◌, ◌++◌, map, OnOk, IfOk, string_bytes};
ghost use Rattle.safl_verilog.specs.FaultTexts.{vfault_text};
ghost use Rattle.safl_tool.specs.Lines.{placed_line};
ghost use Rattle.safl_tool.specs.VerilogLines.{loop_line, spaced, spaced_name};

use crate::refusal::push;
use safl_verilog::{VFault, push_vfault};
use safl_word::{NoMemory, Raw, push_decimal};
use std::alloc::Global;

/// The line that reports a fault of the file `name`, at a line and a column.
pub fn verilog_line(
    alloc: Global,
    name: &str,
    fault: VFault,
    line: usize,
    column: usize,
) -> Result<Vec<u8>, NoMemory>
    ensures { IfOk result (λ text. text.items ≡ placed_line name.now line column (vfault_text fault)) }
{
    let mut out = Vec::new(alloc);
    push(&mut out, name.as_bytes())?;
    push(&mut out, b":")?;
    push_decimal(line as Raw, &mut out)?;
    push(&mut out, b":")?;
    push_decimal(column as Raw, &mut out)?;
    push(&mut out, b": ")?;
    push_vfault(fault, &mut out)?;
    push(&mut out, b"\n")?;
    Ok(out)
}

/// The line that reports a loop of these wires in the net of the file `name`.
pub fn loop_line(alloc: Global, name: &str, wires: &[String]) -> Result<Vec<u8>, NoMemory>
    ensures { IfOk result (λ line. line.items ≡ loop_line name.now (map string_bytes wires.now)) }
{
    let mut out = Vec::new(alloc);
    push(&mut out, name.as_bytes())?;
    push(&mut out, b": V09 combinational loop:")?;
    push_names(&mut out, wires)?;
    push(&mut out, b"\n")?;
    Ok(out)
}

// Appends each name, with a space before it.
fn push_names(out: &mut Vec<u8>, names: &[String]) -> Result<(), NoMemory>
    ensures { OnOk result (out.new.items ≡ out.old.items ++ spaced (map string_bytes names.now)) }
{
    'names: for i in 0..names.len() {
        push_name(out, &names[i])?;
    }
    Ok(())
}

fn push_name(out: &mut Vec<u8>, name: &str) -> Result<(), NoMemory>
    ensures { OnOk result (out.new.items ≡ out.old.items ++ spaced_name name.now) }
{
    push(out, b" ")?;
    push(out, name.as_bytes())?;
    Ok(())
}
