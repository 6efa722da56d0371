//! The names of a bit-level circuit's inputs, latches and outputs, and the literals that latches and outputs take.

ghost use Rattle.std.specs.Prelude.{◌≡◌, ◌+◌, ◌<◌, ◌++◌, length, OnOk, IfOk};
ghost use Rattle.safl_net.specs.Netlist.{AllSet};
ghost use Rattle.safl_net.specs.Rules.{IsNetlist};
ghost use Rattle.safl_aiger.specs.Circuits.{names_of};
ghost use Rattle.safl_aig.specs.Bits.{gathered, of_kind, for_inputs, for_registers};
ghost use Rattle.safl_net.specs.Netlist.{is_register};
ghost use Rattle.safl_aig.specs.Tables.{lits_at, kind_test};
ghost use Rattle.safl_aig.specs.Places.{next_sig, next_lits, output_lits, bit_name, bit_names, signal_names, output_names};

use crate::table::{Pins, literals};
use safl_aiger::{Lit, Name, Names};
use safl_net::{Net, Sig, SigKind};
use safl_word::{NoMemory, push_decimal};
use std::alloc::{AllocError, Global};

/// The literals of the registers' next signals, bit by bit.
pub fn next_lits(alloc: Global, net: &Net, table: &[Pins]) -> Result<Vec<Lit>, AllocError>
    requires set { AllSet net.now }
    requires long { length table.now ≡ length net.now.signals }
    ensures { IfOk result (λ r. r.items ≡ next_lits net.now table.now) }
{
    let mut all = Vec::new(alloc);
    'signals: for i in 0..net.signals() {
        push_next(&mut all, net, table, Sig(i))?;
    }
    Ok(all)
}

fn push_next(all: &mut Vec<Lit>, net: &Net, table: &[Pins], s: Sig) -> Result<(), AllocError>
    requires netlist { IsNetlist net.now }
    requires set { AllSet net.now }
    requires long { length table.now ≡ length net.now.signals }
    requires known { s.0 < length net.now.signals }
    ensures { OnOk result (all.new.items ≡ all.old.items ++ of_kind is_register net.now (λ s. lits_at table.now (next_sig net.now s)) s.0) }
{
    match net.kind(s) {
        SigKind::Reg => match net.next(s) {
            Some(next) => {
                all.extend_from_slice(literals(table, next))?;
                Ok(())
            }
            None => unreachable!(),
        },
        _ => Ok(()),
    }
}

/// The literals of the outputs, bit by bit.
pub fn output_lits(alloc: Global, net: &Net, table: &[Pins]) -> Result<Vec<Lit>, AllocError>
    requires netlist { IsNetlist net.now }
    requires long { length table.now ≡ length net.now.signals }
    ensures { IfOk result (λ r. r.items ≡ output_lits net.now table.now) }
{
    let mut all = Vec::new(alloc);
    'outputs: for i in 0..net.outputs() {
        all.extend_from_slice(literals(table, net.output_sig(i)))?;
    }
    Ok(all)
}

/// The names of all inputs, latches and outputs.
pub fn names(alloc: Global, net: &Net) -> Result<Names, NoMemory>
    ensures inputs { IfOk result (λ r. names_of r.inputs.items ≡ for_inputs net.now (signal_names net.now)) }
    ensures latches { IfOk result (λ r. names_of r.latches.items ≡ for_registers net.now (signal_names net.now)) }
    ensures outputs { IfOk result (λ r. names_of r.outputs.items ≡ gathered (output_names net.now) (length net.now.outputs)) }
{
    Ok(Names {
        inputs: kind_names(alloc, net, SigKind::Input)?,
        latches: kind_names(alloc, net, SigKind::Reg)?,
        outputs: output_names(alloc, net)?,
    })
}

fn kind_names(alloc: Global, net: &Net, sort: SigKind) -> Result<Vec<Name>, NoMemory>
    ensures { IfOk result (λ r. names_of r.items ≡ gathered (of_kind (kind_test sort) net.now (signal_names net.now)) (length net.now.signals)) }
{
    let mut all = Vec::new(alloc);
    'signals: for i in 0..net.signals() {
        push_if(alloc, &mut all, net, sort, Sig(i))?;
    }
    Ok(all)
}

fn push_if(
    alloc: Global,
    all: &mut Vec<Name>,
    net: &Net,
    sort: SigKind,
    s: Sig,
) -> Result<(), NoMemory>
    requires { s.0 < length net.now.signals }
    ensures { OnOk result (names_of all.new.items ≡ names_of all.old.items ++ of_kind (kind_test sort) net.now (signal_names net.now) s.0) }
{
    if net.kind(s) == sort {
        return push_names(alloc, all, net.name(s), net.width(s));
    }
    Ok(())
}

fn output_names(alloc: Global, net: &Net) -> Result<Vec<Name>, NoMemory>
    ensures { IfOk result (λ r. names_of r.items ≡ gathered (output_names net.now) (length net.now.outputs)) }
{
    let mut all = Vec::new(alloc);
    let _count = net.signals();
    'outputs: for i in 0..net.outputs() {
        let width = net.width(net.output_sig(i));
        push_names(alloc, &mut all, net.output_name(i), width)?;
    }
    Ok(all)
}

// Appends a name for each bit of the signal `name`.
fn push_names(alloc: Global, all: &mut Vec<Name>, name: &str, width: u8) -> Result<(), NoMemory>
    ensures { OnOk result (names_of all.new.items ≡ names_of all.old.items ++ bit_names name.now width) }
{
    for bit in 0..width {
        let bytes = bit_name(alloc, name, bit)?;
        all.push(Name { bytes })?;
    }
    Ok(())
}

fn bit_name(alloc: Global, name: &str, bit: u8) -> Result<Vec<u8>, NoMemory>
    ensures { IfOk result (λ r. r.items ≡ bit_name name.now bit) }
{
    let mut bytes = Vec::from_slice(alloc, name.as_bytes())?;
    bytes.push(b'[')?;
    push_decimal(u128::from(bit), &mut bytes)?;
    bytes.push(b']')?;
    Ok(bytes)
}
