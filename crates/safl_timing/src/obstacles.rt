//! What makes time depend on a secret, as lines. Nothing is proved of them.

use safl_compiler::Accepted;
use safl_labels::{Obstacle, Parameter, place_of_branch};
use safl_term::Checked;
use safl_tool::refusal::{column_number, line_number};
use safl_word::{NoMemory, Raw, push_decimal};
use std::alloc::Global;

/// A line with the parameter of main that time may depend on, and one with the condition and how the secret came there.
pub fn obstacle_lines(
    alloc: Global,
    source: &[u8],
    accepted: &Accepted,
    obstacle: &Obstacle,
) -> Result<Vec<u8>, NoMemory> {
    let c = &accepted.checked;
    let mut text = Vec::new(alloc);
    text.extend_from_slice(b"time may depend on ")?;
    match obstacle.chain.first() {
        Some(parameter) => push_parameter(&mut text, c, *parameter)?,
        None => text.extend_from_slice(b"a secret")?,
    }
    text.extend_from_slice(b"\ncondition ")?;
    push_place(&mut text, alloc, source, accepted, obstacle)?;
    text.extend_from_slice(b" of ")?;
    push_function(&mut text, c, obstacle.function)?;
    push_chain(&mut text, c, &obstacle.chain)?;
    text.extend_from_slice(b"\n")?;
    Ok(text)
}

// Appends the line and the column of the condition.
fn push_place(
    text: &mut Vec<u8>,
    alloc: Global,
    source: &[u8],
    accepted: &Accepted,
    obstacle: &Obstacle,
) -> Result<(), NoMemory> {
    let Some(def) = accepted.program.defs.get(obstacle.function as usize) else {
        return Ok(());
    };
    let place = match place_of_branch(alloc, &def.body, obstacle.branch)? {
        Some(place) => place as usize,
        None => def.place as usize,
    };
    push_decimal(line_number(source, place) as Raw, text)?;
    text.extend_from_slice(b":")?;
    push_decimal(column_number(source, place) as Raw, text)
}

// Appends the parameters that carried the secret.
fn push_chain(text: &mut Vec<u8>, c: &Checked, chain: &[Parameter]) -> Result<(), NoMemory> {
    let mut before = b" by ".as_slice();
    for parameter in chain {
        text.extend_from_slice(before)?;
        push_parameter(text, c, *parameter)?;
        text.extend_from_slice(b" of ")?;
        push_function(text, c, parameter.function)?;
        before = b", ".as_slice();
    }
    Ok(())
}

fn push_parameter(text: &mut Vec<u8>, c: &Checked, p: Parameter) -> Result<(), NoMemory> {
    if p.function < c.functions() && p.place < c.params(p.function) {
        text.extend_from_slice(c.param_name(p.function, p.place))?;
    }
    Ok(())
}

fn push_function(text: &mut Vec<u8>, c: &Checked, f: u32) -> Result<(), NoMemory> {
    if f < c.functions() {
        text.extend_from_slice(c.name(f))?;
    }
    Ok(())
}
