//! The texts of faults.

ghost use Rattle.std.specs.Prelude.{◌≡◌, ◌++◌, OnOk, IfOk};
ghost use Rattle.safl_verilog.specs.FaultTexts.{vrule_text, both_widths, vfault_text};

use crate::fault::{VFault, VRule};
use safl_word::{NoMemory, Raw, push_decimal};
use std::alloc::Global;

// The number of the rule, and its text.
fn rule_text(rule: VRule) -> &'static str
    ensures { result.now ≡ vrule_text rule }
{
    match rule {
        VRule::V01 => "V01 foreign byte",
        VRule::V02 => "V02 unexpected token",
        VRule::V03 => "V03 name twice",
        VRule::V04 => "V04 unknown name",
        VRule::V05 => "V05 widths differ",
        VRule::V06 => "V06 bad literal",
        VRule::V07 => "V07 wire without exactly one assign",
        VRule::V08 => "V08 register without exactly one update",
        VRule::V10 => "V10 port missing",
    }
}

/// Appends the text of a fault without its place, such as `V05 widths differ: 8 and 4`.
pub fn push_vfault(fault: VFault, out: &mut Vec<u8>) -> Result<(), NoMemory>
    ensures { OnOk result (out.new.items ≡ out.old.items ++ vfault_text fault) }
{
    let text = text_of(*out.allocator(), fault)?;
    out.extend_from_slice(&text)?;
    Ok(())
}

fn text_of(alloc: Global, fault: VFault) -> Result<Vec<u8>, NoMemory>
    ensures { IfOk result (λ text. text.items ≡ vfault_text fault) }
{
    let mut text = Vec::from_slice(alloc, rule_text(fault.rule).as_bytes())?;
    match fault.rule {
        VRule::V05 => push_widths(fault, &mut text)?,
        _ => (),
    }
    Ok(text)
}

fn push_widths(fault: VFault, out: &mut Vec<u8>) -> Result<(), NoMemory>
    ensures ok { OnOk result (out.new.items ≡ out.old.items ++ both_widths fault) }
{
    out.extend_from_slice(b": ")?;
    push_decimal(Raw::from(fault.first), out)?;
    out.extend_from_slice(b" and ")?;
    push_decimal(Raw::from(fault.second), out)
}
