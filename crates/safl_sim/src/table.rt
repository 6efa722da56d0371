//! The table of what reads each place.

ghost use Rattle.std.specs.Prelude.{◌≡◌, ℕ, ◌+◌, ◌^◌, ◌<◌, ◌≤◌, List, length, slice_get, Some, IfOk, OnErr};
ghost use Rattle.safl_net.specs.Netlist.{AllSet};
ghost use Rattle.safl_net.specs.Rules.{IsNetlist};
ghost use Rattle.safl_net.specs.Making.{numbers};
ghost use Rattle.safl_order.specs.Order.{IsWire, IsOrder};
ghost use Rattle.safl_sim.specs.Marks.{mark_words};
ghost use Rattle.safl_sim.specs.Readers.{Lists, AreReaders, AreFlat, ListsNexts, ListsDown, ListsOperands};
ghost use Rattle.safl_sim.specs.Steps.{AreRegisters};
ghost use Rattle.safl_sim.specs.States.{HaveNextsBelow};

use crate::chains::Chains;
use crate::marks::word_count;
use crate::step::Register;
use safl_net::{Net, Sig};
use std::alloc::{AllocError, Global};

/// The readers of all places, place by place.
#[derive(Drop)]
pub struct Table {
    pub starts: Vec<u32>,
    pub readers: Vec<u32>,
}

/// The table of a net's steps and registers. Each list is made from its last number to its first, so that it ascends.
pub fn table_of(
    alloc: Global,
    net: &Net,
    wires: &[Sig],
    registers: &[Register],
) -> Result<Table, AllocError>
    requires few { length wires.now < 2 ^ 32 }
    requires some { length registers.now < 2 ^ 32 }
    requires netlist { IsNetlist net.now }
    requires order { IsOrder net.now (numbers wires.now) }
    requires registers { AreRegisters net.now (length net.now.signals) registers.now }
    ensures lists { IfOk result (λ t. Lists t.starts.items t.readers.items (length net.now.signals) (mark_words (length wires.now) (length registers.now))) }
    ensures readers { IfOk result (λ t. AreReaders net.now (numbers wires.now) registers.now t.starts.items t.readers.items) }
{
    let count = net.signals();
    let mut lists = Chains::new(alloc, count as usize)?;
    let words = word_count(wires.len());
    push_nexts(&mut lists, registers, words * 64)?;
    push_steps(&mut lists, net, wires)?;
    let table = flatten(alloc, &lists, count)?;
    Ok(table)
}

// Puts registers on the lists of their next signals. Their marks are numbered from `first` on.
fn push_nexts(lists: &mut Chains, registers: &[Register], first: usize) -> Result<(), AllocError>
    requires few { first + length registers.now < 2 ^ 40 }
    requires within { HaveNextsBelow registers.now (length lists.old) }
    ensures long { length lists.new ≡ length lists.old }
    ensures all { ListsNexts result registers.now first lists.old lists.new }
{
    let count = registers.len();
    'registers: for i in 0..count {
        let k = count - 1 - i;
        let mark = narrowed(first + k)?;
        lists.push(registers[k].next.0 as usize, mark)?;
    }
    Ok(())
}

// Puts steps on the lists of their operands.
fn push_steps(lists: &mut Chains, net: &Net, wires: &[Sig]) -> Result<(), AllocError>
    requires few { length wires.now < 2 ^ 32 }
    requires netlist { IsNetlist net.now }
    requires order { IsOrder net.now (numbers wires.now) }
    requires long { length lists.old ≡ length net.now.signals }
    ensures long { length lists.new ≡ length lists.old }
    ensures all { (regs : List Register) → ListsDown result net.now (numbers wires.now) regs (length wires.now) 0 lists.old lists.new }
{
    let count = wires.len();
    'wires: for i in 0..count {
        let k = count - 1 - i;
        push_step(lists, net, wires[k], k as u32)?;
    }
    Ok(())
}

fn push_step(lists: &mut Chains, net: &Net, wire: Sig, k: u32) -> Result<(), AllocError>
    requires netlist { IsNetlist net.now }
    requires set { AllSet net.now }
    requires wire { IsWire net.now wire.0 }
    requires long { length lists.old ≡ length net.now.signals }
    ensures long { length lists.new ≡ length lists.old }
    ensures more { (ws : List ℕ) (regs : List Register) → slice_get ws k ≡ Some wire.0 → ListsDown result net.now ws regs (k + 1) k lists.old lists.new }
{
    match net.cell(wire) {
        Some(cell) => push_operands(lists, cell.operands.as_slice(), k),
        None => unreachable!(),
    }
}

fn push_operands(lists: &mut Chains, operands: &[Sig], k: u32) -> Result<(), AllocError>
    requires within { (i : ℕ) (t : Sig) → slice_get operands.now i ≡ Some t → t.0 < length lists.old }
    ensures long { length lists.new ≡ length lists.old }
    ensures more { ListsOperands result (numbers operands.now) k lists.old lists.new }
{
    'operands: for i in 0..operands.len() {
        lists.push(operands[i].0 as usize, k)?;
    }
    Ok(())
}

// The lists, laid out one after another.
fn flatten(alloc: Global, lists: &Chains, count: u32) -> Result<Table, AllocError>
    requires { length lists.now ≡ count }
    ensures { IfOk result (λ t. AreFlat lists.now t.starts.items t.readers.items (length lists.now)) }
{
    let places = count as usize;
    let mut starts = Vec::with_capacity(alloc, places + 1)?;
    let mut readers = Vec::new(alloc);
    starts.push(0)?;
    'places: for p in 0..places {
        lists.append(p, &mut readers)?;
        let end = narrowed(readers.len())?;
        starts.push(end)?;
    }
    Ok(Table { starts, readers })
}

// A number in 32 bits. A larger table would not fit into memory.
fn narrowed(number: usize) -> Result<u32, AllocError>
    ensures number { IfOk result (λ k. k ≡ number) }
    ensures large { OnErr result (2 ^ 32 ≤ number) }
{
    if number > 0xFFFF_FFFF {
        return Err(AllocError);
    }
    Ok(number as u32)
}
