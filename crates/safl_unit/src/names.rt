//! Names of signals.

ghost use Rattle.std.specs.Prelude.{◌≡◌, ◌<◌, ◌++◌, IfOk, string_bytes, codes, decimal};
ghost use Rattle.std.specs.Str.{IsUtf8};
ghost use Rattle.safl_circuit.specs.Equations.{many};

use safl_term::Checked;
use std::alloc::{AllocError, Global};

/// A name with a prefix.
pub fn headed(alloc: Global, head: &str, name: &[u8]) -> Result<String, AllocError>
    requires { IsUtf8 name.now }
    ensures { IfOk result (λ s. string_bytes s ≡ head.now ++ name.now) }
{
    let mut text = String::from_str(alloc, head)?;
    match std::str::from_utf8(name) {
        Ok(rest) => text.push_str(rest)?,
        Err(_) => unreachable!(),
    }
    Ok(text)
}

/// A prefix with a number in decimal.
pub fn numbered(alloc: Global, head: &str, number: u32) -> Result<String, AllocError>
    ensures { IfOk result (λ s. string_bytes s ≡ head.now ++ decimal number) }
{
    format!(in alloc; "{head}{number}")
}

/// The name of the register for a parameter of a function.
pub fn argument_name(alloc: Global, function: &[u8], param: &[u8]) -> Result<String, AllocError>
    requires function { IsUtf8 function.now }
    requires param { IsUtf8 param.now }
    ensures { IfOk result (λ s. string_bytes s ≡ codes "arg$" ++ (function.now ++ (codes "$" ++ param.now))) }
{
    let mut text = headed(alloc, "arg$", function)?;
    let rest = headed(alloc, "$", param)?;
    text.push_str(rest.as_str())?;
    Ok(text)
}

/// Whether the unit of a function has other functions.
pub fn has_peers(c: &Checked, f: u32) -> bool
    requires { f < c.now.program.functions }
    ensures { result ≡ many c.now.program f }
{
    let functions = c.functions();
    if c.unit(f) != f {
        return true;
    }
    f + 1 < functions && c.unit(f + 1) == f
}

/// The number of main.
pub fn main_function(c: &Checked) -> u32
    ensures number { result ≡ c.now.program.main }
    ensures within { result < c.now.program.functions }
{
    c.functions() - 1
}
