//! The parts of a simulator, made from an ordered net.

ghost use Rattle.std.specs.Prelude.{◌≡◌, ℕ, ◌+◌, ◌*◌, ◌^◌, ◌<◌, ◌≤◌, [], ◌++◌, length, OnOk, slice_get, Some, true, IfOk, IfSome, IfNone};
ghost use Rattle.safl_net.specs.Netlist.{AllSet, Reg, width_of};
ghost use Rattle.safl_net.specs.Valuations.{kind_reset};
ghost use Rattle.safl_net.specs.Rules.{IsNetlist};
ghost use Rattle.safl_net.specs.Making.{numbers, kind_at};
ghost use Rattle.safl_order.specs.Order.{IsWire};
ghost use Rattle.safl_sim.specs.Marks.{marked, first_register, mark_words};
ghost use Rattle.safl_sim.specs.Nears.{AreNear};
ghost use Rattle.safl_sim.specs.Readers.{Inside, Lists};
ghost use Rattle.safl_sim.specs.Places.{inputs_of, resets};
ghost use Rattle.safl_net.specs.Netlist.{with_input};
ghost use Rattle.safl_sim.specs.States.{AreReset, AreBelow};
ghost use Rattle.safl_sim.specs.Steps.{IsStep, IsReg, AreSteps, AreRegisters};
ghost use Rattle.safl_sim.specs.Cycles.{state_of, KeepsStates};

use crate::guards::guards_of;
use crate::marks::{Marks, word_count};
use crate::near::{groups_of, near_of};
use crate::plan::Plan;
use crate::step::{Near, Register, Step, fitting_action};
use crate::table::table_of;
use safl_net::{Net, Sig, SigKind};
use safl_order::Ordered;
use safl_word::{LOW_MAX, Numbers, Raw};
use std::alloc::{AllocError, Global};
use std::mem::drop;

/// The parts of a simulator: its plan, the marks of steps and registers, the registers that wait to be shown, the
/// registers' state, and the number of each signal.
#[derive(Drop)]
pub struct Parts {
    pub plan: Plan,
    pub marks: Marks,
    pub waiting: Marks,
    pub state: Vec<Raw>,
    pub values: Numbers,
}

impl Parts {
    /// The parts at reset.
    pub fn new(alloc: Global, ordered: &Ordered) -> Result<Parts, AllocError>
        ensures keeps { IfOk result (λ p. KeepsStates ordered.now p.plan p.marks p.waiting p.state.items p.values) }
        ensures state { IfOk result (λ p. state_of ordered.now p.plan p.state.items ≡ resets ordered.now.net) }
        ensures values { IfOk result (λ p. p.values ≡ resets ordered.now.net) }
    {
        let net = ordered.net();
        let _count = net.signals();
        let numbers = resets(alloc, net)?;
        let values = Numbers::new(alloc, &numbers)?;
        // Freed early, since the other parts need the memory.
        drop(numbers);
        let registers = registers_of(alloc, net)?;
        let kept = registers.as_slice();
        // The table comes first: while it is made, it takes more memory than later.
        let table = table_of(alloc, net, ordered.wires(), kept)?;
        let made = steps_of(alloc, net, &table.starts, &table.readers, ordered.wires())?;
        let steps = made.steps;
        let groups = groups_of(alloc, kept, &table.starts, &table.readers)?;
        let guards = guards_of(alloc, &steps, &table.starts, &table.readers)?;
        let marks = all_marked(alloc, ordered.wires().len(), kept.len())?;
        let waiting = Marks::new(alloc, word_count(kept.len()))?;
        let state = states_of(alloc, net, kept)?;
        let plan = Plan {
            steps,
            masks: made.masks,
            inputs: inputs_of(alloc, net)?,
            registers,
            groups,
            starts: table.starts,
            readers: table.readers,
            guards,
        };
        Ok(Parts {
            plan,
            marks,
            waiting,
            state,
            values,
        })
    }
}

// Marks of `steps` steps and `registers` registers, all of them set.
fn all_marked(alloc: Global, steps: usize, registers: usize) -> Result<Marks, AllocError>
    requires few { steps < 2 ^ 32 }
    requires some { registers < 2 ^ 32 }
    ensures long { IfOk result (λ m. length m ≡ mark_words steps registers) }
    ensures inside { IfOk result (λ m. Inside steps registers m) }
    ensures step { IfOk result (λ m. (k : ℕ) → k < steps → marked m k ≡ 1) }
    ensures register { IfOk result (λ m. (k : ℕ) → k < registers → marked m (first_register steps + k) ≡ 1) }
{
    let first = word_count(steps) * 64;
    let mut marks = Marks::new(alloc, word_count(first + registers))?;
    marks.mark_range(0, steps);
    marks.mark_range(first, first + registers);
    Ok(marks)
}

// The steps, with the masks of their near readers.
#[derive(Drop)]
struct Steps {
    steps: Vec<Step>,
    masks: Vec<u64>,
}

// The steps of wires, in this order.
fn steps_of(
    alloc: Global,
    net: &Net,
    starts: &[u32],
    readers: &[u32],
    wires: &[Sig],
) -> Result<Steps, AllocError>
    requires netlist { IsNetlist net.now }
    requires set { AllSet net.now }
    requires wires { (i : ℕ) (s : ℕ) → slice_get (numbers wires.now) i ≡ Some s → IsWire net.now s }
    requires lists { (words : ℕ) × Lists starts.now readers.now (length net.now.signals) words }
    ensures steps { IfOk result (λ v. AreSteps net.now (numbers wires.now) v.steps.items) }
    ensures near { IfOk result (λ v. AreNear starts.now readers.now v.steps.items v.masks.items) }
{
    let mut steps = Vec::with_capacity(alloc, wires.len())?;
    let mut masks = Vec::with_capacity(alloc, wires.len())?;
    'wires: for i in 0..wires.len() {
        let place = wires[i].0 as usize;
        let near = near_of(readers, starts[place], starts[place + 1], i / 64);
        steps.push(step_of(net, starts, wires[i], near))?;
        masks.push(near.mask)?;
    }
    Ok(Steps { steps, masks })
}

// The step of a wire with these near readers.
fn step_of(net: &Net, starts: &[u32], wire: Sig, near: Near) -> Step
    requires netlist { IsNetlist net.now }
    requires set { AllSet net.now }
    requires wire { IsWire net.now wire.0 }
    ensures step { IsStep net.now wire.0 result }
    ensures first { result.first ≡ near.first }
    ensures end { result.end ≡ near.end }
{
    match net.cell(wire) {
        Some(cell) => Step {
            wire,
            action: fitting_action(net, starts, wire, cell),
            first: near.first,
            end: near.end,
        },
        None => unreachable!(),
    }
}

// The inputs of a net, in order.
fn inputs_of(alloc: Global, net: &Net) -> Result<Vec<Sig>, AllocError>
    ensures { IfOk result (λ v. numbers v.items ≡ inputs_of net.now) }
{
    let mut inputs = Vec::new(alloc);
    'signals: for i in 0..net.signals() {
        push_input(&mut inputs, net, Sig(i))?;
    }
    Ok(inputs)
}

fn push_input(inputs: &mut Vec<Sig>, net: &Net, signal: Sig) -> Result<(), AllocError>
    requires { signal.0 < length net.now.signals }
    ensures { OnOk result (numbers inputs.new.items ≡ numbers inputs.old.items ++ with_input (kind_at net.now signal.0) signal.0 []) }
{
    match net.kind(signal) {
        SigKind::Input => {
            inputs.push(signal)?;
            Ok(())
        }
        _ => Ok(()),
    }
}

// The registers of a net, in order, with their next signals.
fn registers_of(alloc: Global, net: &Net) -> Result<Vec<Register>, AllocError>
    requires { AllSet net.now }
    ensures { IfOk result (λ v. AreRegisters net.now (length net.now.signals) v.items) }
{
    let mut registers = Vec::new(alloc);
    'signals: for i in 0..net.signals() {
        push_register(&mut registers, net, Sig(i))?;
    }
    Ok(registers)
}

fn push_register(registers: &mut Vec<Register>, net: &Net, signal: Sig) -> Result<(), AllocError>
    requires set { AllSet net.now }
    requires known { signal.0 < length net.now.signals }
    ensures { AreRegisters net.now signal.0 registers.old.items → OnOk result (AreRegisters net.now (signal.0 + 1) registers.new.items) }
{
    match register_of(net, signal) {
        Some(register) => {
            registers.push(register)?;
            Ok(())
        }
        None => Ok(()),
    }
}

fn register_of(net: &Net, signal: Sig) -> Option<Register>
    requires set { AllSet net.now }
    requires known { signal.0 < length net.now.signals }
    ensures none { IfNone result (¬ (IsReg (kind_at net.now signal.0))) }
    ensures register { IfSome result (λ r. (r.signal.0 ≡ signal.0) × ((init : ℕ) × (kind_at net.now signal.0 ≡ Reg init (Some r.next.0)))) }
    ensures narrow { IfSome result (λ r. r.narrow ≡ true → width_of net.now r.signal.0 ≤ 64) }
{
    match net.kind(signal) {
        SigKind::Reg => match net.next(signal) {
            Some(next) => Some(Register {
                signal,
                next,
                narrow: net.width(signal) <= LOW_MAX,
            }),
            None => unreachable!(),
        },
        _ => None,
    }
}

// The number of each register at reset.
fn states_of(alloc: Global, net: &Net, registers: &[Register]) -> Result<Vec<Raw>, AllocError>
    requires { AreBelow registers.now (length net.now.signals) }
    ensures { IfOk result (λ v. AreReset net.now registers.now (length registers.now) v.items) }
{
    let mut numbers = Vec::with_capacity(alloc, registers.len())?;
    'registers: for i in 0..registers.len() {
        numbers.push(reset(net, registers[i].signal))?;
    }
    Ok(numbers)
}

// The number of each signal at reset: a register's reset number, and 0 for other signals.
fn resets(alloc: Global, net: &Net) -> Result<Vec<Raw>, AllocError>
    ensures { IfOk result (λ v. v.items ≡ resets net.now) }
{
    let count = net.signals();
    let mut numbers = Vec::with_capacity(alloc, count as usize)?;
    'signals: for i in 0..count {
        numbers.push(reset(net, Sig(i)))?;
    }
    Ok(numbers)
}

fn reset(net: &Net, signal: Sig) -> Raw
    requires { signal.0 < length net.now.signals }
    ensures { result ≡ kind_reset (kind_at net.now signal.0) }
{
    match net.kind(signal) {
        SigKind::Reg => net.init(signal).bits(),
        _ => 0,
    }
}
