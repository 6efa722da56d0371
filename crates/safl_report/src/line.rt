//! Pieces of a line: labels and numbers.

ghost use Rattle.std.specs.Prelude.{◌≡◌, ◌++◌, OnOk, codes, decimal};
ghost use Rattle.safl_report.specs.Report.{answer_word, function_text, site_text, register_text};

use safl_word::{NoMemory, Raw, push_decimal};

fn answer(is_so: bool) -> &'static str
    ensures { result.now ≡ answer_word is_so }
{
    if is_so { "yes" } else { "no" }
}

fn push_name(out: &mut Vec<u8>, label: &str, name: &[u8]) -> Result<(), NoMemory>
    ensures { OnOk result (out.new.items ≡ out.old.items ++ label.now ++ name.now) }
{
    out.extend_from_slice(label.as_bytes())?;
    out.extend_from_slice(name)?;
    Ok(())
}

/// Appends a label and a number.
pub fn push_number(out: &mut Vec<u8>, label: &str, number: u64) -> Result<(), NoMemory>
    ensures { OnOk result (out.new.items ≡ out.old.items ++ label.now ++ decimal number) }
{
    out.extend_from_slice(label.as_bytes())?;
    push_decimal(Raw::from(number), out)
}

fn push_answer(out: &mut Vec<u8>, label: &str, is_so: bool) -> Result<(), NoMemory>
    ensures { OnOk result (out.new.items ≡ out.old.items ++ label.now ++ answer_word is_so) }
{
    out.extend_from_slice(label.as_bytes())?;
    out.extend_from_slice(answer(is_so).as_bytes())?;
    Ok(())
}

/// Appends the end of a line.
pub fn push_end(out: &mut Vec<u8>) -> Result<(), NoMemory>
    ensures { OnOk result (out.new.items ≡ out.old.items ++ codes "\n") }
{
    out.extend_from_slice(b"\n")?;
    Ok(())
}

/// Appends the line of a function: its name, how many sites call it, and whether its unit has an arbiter.
pub fn push_function(
    out: &mut Vec<u8>,
    name: &[u8],
    calls: u32,
    arbiter: bool,
) -> Result<(), NoMemory>
    ensures { OnOk result (out.new.items ≡ out.old.items ++ function_text name.now calls arbiter) }
{
    push_name(out, "function ", name)?;
    push_number(out, " sites ", u64::from(calls))?;
    push_answer(out, " arbiter ", arbiter)?;
    push_end(out)
}

/// Appends the line of a site: its number, the names of the function that it calls and of the one whose body has it,
/// and whether it keeps its word.
pub fn push_site(
    out: &mut Vec<u8>,
    k: u32,
    callee: &[u8],
    caller: &[u8],
    kept: bool,
) -> Result<(), NoMemory>
    ensures { OnOk result (out.new.items ≡ out.old.items ++ site_text k callee.now caller.now kept) }
{
    push_number(out, "site ", u64::from(k))?;
    push_name(out, " ", callee)?;
    push_name(out, " in ", caller)?;
    push_answer(out, " kept ", kept)?;
    push_end(out)
}

/// Appends the line that says how many registers there are, and how many bits they have.
pub fn push_registers(out: &mut Vec<u8>, count: u32, bits: u64) -> Result<(), NoMemory>
    ensures { OnOk result (out.new.items ≡ out.old.items ++ register_text count bits) }
{
    push_number(out, "registers ", u64::from(count))?;
    push_number(out, " bits ", bits)?;
    push_end(out)
}
