//! Lists of names, and which parameters of main they make secret.

ghost use Rattle.std.specs.Prelude.{◌≡◌, IfOk, option_map};
ghost use Rattle.std.specs.Str.{bytes_eq};
ghost use Rattle.safl_timing.specs.Names as plain;
ghost use Rattle.safl_timing.specs.Names.{shown_names};

use safl_term::Checked;
use safl_word::NoMemory;
use std::alloc::Global;
use std::mem::replace;

/// The names in a list, with commas between them. The empty list has none.
pub fn names_in(alloc: Global, list: &[u8]) -> Result<Vec<Vec<u8>>, NoMemory>
    ensures { IfOk result (λ names. shown_names names.items ≡ plain.names_in list.now) }
{
    let mut names = Vec::new(alloc);
    if list.is_empty() {
        return Ok(names);
    }
    let mut name = Vec::new(alloc);
    'bytes: for byte in list {
        if *byte == b',' {
            names.push(replace(&mut name, Vec::new(alloc)))?;
        } else {
            name.push(*byte)?;
        }
    }
    names.push(name)?;
    Ok(names)
}

/// The names of main's parameters.
pub fn main_params(alloc: Global, c: &Checked) -> Result<Vec<Vec<u8>>, NoMemory>
    ensures { IfOk result (λ names. shown_names names.items ≡ c.now.names.params c.now.program.main) }
{
    let mut names = Vec::new(alloc);
    let main = c.main();
    'params: for i in 0..c.params(main) {
        let name = Vec::from_slice(alloc, c.param_name(main, i))?;
        names.push(name)?;
    }
    Ok(names)
}

/// The first of some names that is none of main's parameters.
pub fn first_unknown<'a>(params: &[Vec<u8>], names: &'a [Vec<u8>]) -> Option<&'a [u8]>
    ensures { option_map (λ name. name.now) result ≡ plain.first_unknown (shown_names params.now) (shown_names names.now) }
{
    'names: for name in names {
        if !has_name(params, name) {
            return Some(name);
        }
    }
    None
}

/// Which parameters of main are secret: those with these names, or those with others.
pub fn are_secret(
    alloc: Global,
    listed: bool,
    names: &[Vec<u8>],
    params: &[Vec<u8>],
) -> Result<Vec<bool>, NoMemory>
    ensures { IfOk result (λ flags. flags.items ≡ plain.are_secret listed (shown_names names.now) (shown_names params.now)) }
{
    let mut flags = Vec::new(alloc);
    'params: for param in params {
        flags.push(is_secret(listed, names, param))?;
    }
    Ok(flags)
}

fn is_secret(listed: bool, names: &[Vec<u8>], param: &[u8]) -> bool
    ensures { result ≡ plain.is_secret listed (shown_names names.now) param.now }
{
    if listed {
        has_name(names, param)
    } else {
        !has_name(names, param)
    }
}

// Whether a name is one of these.
fn has_name(names: &[Vec<u8>], wanted: &[u8]) -> bool
    ensures { result ≡ plain.has_name (shown_names names.now) wanted.now }
{
    'names: for name in names {
        if is_same(name, wanted) {
            return true;
        }
    }
    false
}

fn is_same(name: &[u8], other: &[u8]) -> bool
    ensures { result ≡ bytes_eq name.now other.now }
{
    name == other
}
