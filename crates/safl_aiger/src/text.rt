//! The text of a bit-level circuit.

ghost use Rattle.std.specs.Prelude.{◌≡◌, ◌+◌, ◌*◌, ◌<◌, ◌≤◌, ◌++◌, ◌∷◌, [], length, IfOk, OnOk};
ghost use Rattle.safl_word.specs.Limits.{variables_max};
ghost use Rattle.safl_aiger.specs.Circuits.{names_of};
ghost use Rattle.safl_aiger.specs.Texts.{joined_lines, numbers_line, input_text, latch_text, output_text, and_text, symbol_row, symbols_text, header_line, written_circuit};

use crate::circuit::{Aig, Name};
use crate::literal::Lit;
use safl_word::{NoMemory, push_decimal};
use std::alloc::Global;

/// The text of a circuit: its header, then a line for each input, latch, output and AND, then a line for each name that
/// is not empty.
pub fn aig_text(alloc: Global, a: &Aig) -> Result<Vec<u8>, NoMemory>
    ensures { IfOk result (λ text. text.items ≡ written_circuit a.now) }
{
    let mut out = Vec::new(alloc);
    let inputs = a.inputs();
    let latches = a.latches();
    push_header(&mut out, a)?;
    push_inputs(&mut out, inputs)?;
    push_latches(&mut out, 1 + inputs, a.next_literals())?;
    push_outputs(&mut out, a.output_literals())?;
    push_ands(&mut out, 1 + inputs + latches, a.operands())?;
    push_symbols(&mut out, b'i', a.input_names())?;
    push_symbols(&mut out, b'l', a.latch_names())?;
    push_symbols(&mut out, b'o', a.output_names())?;
    Ok(out)
}

fn push_header(out: &mut Vec<u8>, a: &Aig) -> Result<(), NoMemory>
    ensures { OnOk result (out.new.items ≡ out.old.items ++ joined_lines (header_line a.now ∷ [])) }
{
    let inputs = a.inputs();
    let latches = a.latches();
    let ands = a.ands();
    out.extend_from_slice(b"aag ")?;
    push_numbers(
        out,
        inputs + latches + ands,
        &[inputs, latches, a.outputs(), ands],
    )
}

fn push_inputs(out: &mut Vec<u8>, count: u32) -> Result<(), NoMemory>
    requires { count < variables_max }
    ensures { OnOk result (out.new.items ≡ out.old.items ++ joined_lines (input_text 1 count)) }
{
    for i in 0..count {
        push_numbers(out, 2 * (1 + i), &[])?;
    }
    Ok(())
}

fn push_latches(out: &mut Vec<u8>, first: u32, nexts: &[Lit]) -> Result<(), NoMemory>
    requires { first + length nexts.now ≤ variables_max }
    ensures { OnOk result (out.new.items ≡ out.old.items ++ joined_lines (latch_text first nexts.now)) }
{
    for i in 0..nexts.len() {
        push_numbers(out, 2 * (first + i as u32), &[nexts[i].0])?;
    }
    Ok(())
}

fn push_outputs(out: &mut Vec<u8>, outputs: &[Lit]) -> Result<(), NoMemory>
    ensures { OnOk result (out.new.items ≡ out.old.items ++ joined_lines (output_text outputs.now)) }
{
    for i in 0..outputs.len() {
        push_numbers(out, outputs[i].0, &[])?;
    }
    Ok(())
}

fn push_ands(out: &mut Vec<u8>, first: u32, ands: &[(Lit, Lit)]) -> Result<(), NoMemory>
    requires { first + length ands.now ≤ variables_max }
    ensures { OnOk result (out.new.items ≡ out.old.items ++ joined_lines (and_text first ands.now)) }
{
    for i in 0..ands.len() {
        let (left, right) = ands[i];
        push_numbers(out, 2 * (first + i as u32), &[left.0, right.0])?;
    }
    Ok(())
}

fn push_symbols(out: &mut Vec<u8>, letter: u8, names: &[Name]) -> Result<(), NoMemory>
    ensures { OnOk result (out.new.items ≡ out.old.items ++ joined_lines (symbols_text letter 0 (names_of names.now))) }
{
    for i in 0..names.len() {
        push_symbol(out, letter, i, &names[i].bytes)?;
    }
    Ok(())
}

fn push_symbol(out: &mut Vec<u8>, letter: u8, place: usize, name: &[u8]) -> Result<(), NoMemory>
    ensures { OnOk result (out.new.items ≡ out.old.items ++ joined_lines (symbol_row letter place name.now)) }
{
    if !name.is_empty() {
        out.push(letter)?;
        push_decimal(place as u128, out)?;
        out.push(b' ')?;
        out.extend_from_slice(name)?;
        out.push(b'\n')?;
    }
    Ok(())
}

// Appends a line of numbers, with spaces between them.
fn push_numbers(out: &mut Vec<u8>, first: u32, rest: &[u32]) -> Result<(), NoMemory>
    ensures { OnOk result (out.new.items ≡ out.old.items ++ joined_lines (numbers_line first rest.now ∷ [])) }
{
    push_decimal(u128::from(first), out)?;
    for i in 0..rest.len() {
        out.push(b' ')?;
        push_decimal(u128::from(rest[i]), out)?;
    }
    out.push(b'\n')?;
    Ok(())
}
