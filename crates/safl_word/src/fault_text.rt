//! The texts of faults.

ghost use Rattle.std.specs.Prelude.{◌≡◌, ◌++◌, OnOk, OnErr, IfOk};
ghost use Rattle.safl_word.specs.Faults.{rule_text, limit_name, wanted_and_found, limit_text, fault_text};

use crate::fault::{Fault, NoMemory, Rule};
use crate::numbers::push_decimal;
use crate::word::Raw;
use std::alloc::Global;

impl Rule {
    /// The number of the rule, and its text.
    pub fn text(self) -> &'static str
        ensures { result.now ≡ rule_text self }
    {
        match self {
            Rule::E01 => "E01 foreign byte",
            Rule::E02 => "E02 unexpected token",
            Rule::E03 => "E03 name or number too long",
            Rule::E04 => "E04 nesting too deep",
            Rule::E05 => "E05 bad width or range",
            Rule::E06 => "E06 function defined twice",
            Rule::E07 => "E07 name twice in one list",
            Rule::E08 => "E08 unknown variable",
            Rule::E09 => "E09 function not defined above",
            Rule::E10 => "E10 own call outside tail position",
            Rule::E11 => "E11 wrong number of arguments",
            Rule::E12 => "E12 widths differ",
            Rule::E13 => "E13 literal too large",
            Rule::E14 => "E14 width not known",
            Rule::E15 => "E15 last definition is not main",
            Rule::E16 => "E16 limit",
        }
    }
}

// The name of a limit by its number, which is counted from 1.
fn limit_name(limit: u32) -> &'static str
    ensures { result.now ≡ limit_name limit }
{
    match limit {
        1 => "functions",
        2 => "parameters",
        3 => "bindings",
        4 => "sites",
        5 => "nodes",
        _ => "",
    }
}

/// Appends the text of a fault without its place, such as `E12 widths differ: 8 and 4`, or nothing if out of memory.
pub fn push_fault(fault: Fault, out: &mut Vec<u8>) -> Result<(), NoMemory>
    ensures ok { OnOk result (out.new.items ≡ out.old.items ++ fault_text fault) }
    ensures err { OnErr result (out.new.items ≡ out.old.items) }
{
    let text = text_of(*out.allocator(), fault)?;
    out.extend_from_slice(&text)?;
    Ok(())
}

fn text_of(alloc: Global, fault: Fault) -> Result<Vec<u8>, NoMemory>
    ensures { IfOk result (λ text. text.items ≡ fault_text fault) }
{
    let mut text = Vec::from_slice(alloc, fault.rule.text().as_bytes())?;
    match fault.rule {
        Rule::E11 | Rule::E12 => push_wanted_and_found(fault, &mut text)?,
        Rule::E16 => push_limit(fault, &mut text)?,
        _ => (),
    }
    Ok(text)
}

fn push_wanted_and_found(fault: Fault, out: &mut Vec<u8>) -> Result<(), NoMemory>
    ensures ok { OnOk result (out.new.items ≡ out.old.items ++ wanted_and_found fault) }
{
    out.extend_from_slice(b": ")?;
    push_decimal(Raw::from(fault.first), out)?;
    out.extend_from_slice(b" and ")?;
    push_decimal(Raw::from(fault.second), out)
}

fn push_limit(fault: Fault, out: &mut Vec<u8>) -> Result<(), NoMemory>
    ensures ok { OnOk result (out.new.items ≡ out.old.items ++ limit_text fault) }
{
    out.extend_from_slice(b": ")?;
    out.extend_from_slice(limit_name(fault.first).as_bytes())?;
    out.extend_from_slice(b" ")?;
    push_decimal(Raw::from(fault.second), out)
}
