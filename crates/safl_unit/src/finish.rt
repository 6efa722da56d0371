//! Setting the next signals of the registers and the cells of the named wires, and adding the outputs.

ghost use Rattle.std.specs.Prelude.{◌≡◌, suc, ◌+◌, ◌<◌, ◌≤◌, ◌++◌, map, length, Some, None, false, IfOk, OnOk};
ghost use Rattle.safl_word.specs.Limits.{count_max};
ghost use Rattle.safl_term.specs.Program.{arity};
ghost use Rattle.safl_net.specs.Netlist.{Reg, Wire};
ghost use Rattle.safl_net.specs.Making.{with_kind, with_output, refusal};
ghost use Rattle.safl_net.specs.Names.{is_temp, IsTidy};
ghost use Rattle.safl_net.specs.Settled.{IsSettled};
ghost use Rattle.safl_net.specs.Growth.{Grows};
ghost use Rattle.safl_circuit.specs.Layout.{layout_wires};
ghost use Rattle.safl_lower.specs.Sources.{CanGrow};
ghost use Rattle.safl_lower.specs.Tables.{EachAt};
ghost use Rattle.safl_unit.specs.Cycles.{BankFits, PinsFit};
ghost use Rattle.safl_unit.specs.Ties.{sig_of, unit_ties, site_ties, register_ties, ties, want_wire, body_ties, call_ties, wire_ties};
ghost use Rattle.safl_unit.specs.Finished.{declared_net, ArePins, ControlsFit, Finishes};
ghost use Rattle.safl_unit.specs.Setting.{with_kinds, next_kind, copy_kind, Takes, at_ties, IsSet, own_ties, bank_ties};

use crate::arrivals::program;
use crate::names::{has_peers, main_function};
use crate::pins::{Bank, Controls, Pins, UnitPins};
use safl_net::{Net, NetErr, Op, Sig};
use safl_sites::Planned;
use safl_term::Checked;
use safl_word::NoMemory;
use std::alloc::{AllocError, Global};

// Sets the next signal of a register.
fn set_next(net: &mut Net, register: Sig, next: Sig)
    requires { Takes net.old register.0 (Reg 0 None) next }
    ensures { net.new ≡ with_kind net.old register.0 (next_kind next) }
{
    match net.set_next(register, next) {
        Ok(()) => {}
        Err(_) => unreachable!(),
    }
}

// Makes a wire a copy of a signal.
fn set_copy(net: &mut Net, wire: Sig, source: Sig)
    requires { Takes net.old wire.0 (Wire None) source }
    ensures { net.new ≡ with_kind net.old wire.0 (copy_kind source) }
{
    match net.set_cell(wire, Op::Copy, &[source]) {
        Ok(()) => {}
        Err(_) => unreachable!(),
    }
}

// Sets the next signals of the registers from `first` on.
fn set_nexts(net: &mut Net, first: u32, all: &[Sig])
    requires open { EachAt all.now (λ i s. Takes net.old (first + i) (Reg 0 None) s) }
    requires room { first + length all.now < 4294967296 }
    ensures { net.new ≡ with_kinds net.old first (map next_kind all.now) }
{
    for i in 0..all.len() {
        set_next(net, Sig(first + i as u32), all[i]);
    }
}

// Makes the wires from `first` on copies of these signals.
fn set_copies(net: &mut Net, first: u32, all: &[Sig])
    requires open { EachAt all.now (λ i s. Takes net.old (first + i) (Wire None) s) }
    requires room { first + length all.now < 4294967296 }
    ensures { net.new ≡ with_kinds net.old first (map copy_kind all.now) }
{
    for i in 0..all.len() {
        set_copy(net, Sig(first + i as u32), all[i]);
    }
}

// Appends the next signals of a unit's registers, if `f` is the first function of the unit.
fn add_unit(all: &mut Vec<Sig>, c: &Checked, f: u32, unit: UnitPins) -> Result<(), AllocError>
    requires { f < c.now.program.functions }
    ensures { OnOk result (all.new.items ≡ all.old.items ++ map sig_of (unit_ties c.now.program c.now.names f (Some unit))) }
{
    if c.unit(f) != f {
        return Ok(());
    }
    all.extend_from_slice(&[unit.run, unit.fin, unit.res])?;
    Ok(())
}

// Appends the next signal of the register that says that a function runs, if its unit has other functions.
fn add_at(all: &mut Vec<Sig>, c: &Checked, f: u32, at: Sig) -> Result<(), AllocError>
    requires { f < c.now.program.functions }
    ensures { OnOk result (all.new.items ≡ all.old.items ++ map sig_of (at_ties c.now.program c.now.names f at)) }
{
    if !has_peers(c, f) {
        return Ok(());
    }
    all.push(at)?;
    Ok(())
}

// Appends the next signals of a function's registers, after those of its unit if it is the unit's first.
fn add_function(all: &mut Vec<Sig>, c: &Checked, next: &Bank, f: u32) -> Result<(), AllocError>
    requires function { f < c.now.program.functions }
    requires units { length next.now.units.items ≡ c.now.program.functions }
    requires members { length next.now.members.items ≡ c.now.program.functions }
    requires args { EachAt next.now.members.items (λ g m. length m.args.items ≡ arity c.now.program g) }
    ensures { OnOk result (all.new.items ≡ all.old.items ++ map sig_of (bank_ties c.now.program c.now.names next.now f)) }
{
    let unit = next.units[f as usize];
    let member = &next.members[f as usize];
    add_unit(all, c, f, unit)?;
    add_at(all, c, f, member.at)?;
    all.extend_from_slice(member.args.as_slice())?;
    Ok(())
}

// Appends the next signals of the registers of all functions.
fn add_functions(all: &mut Vec<Sig>, c: &Checked, next: &Bank) -> Result<(), AllocError>
    requires units { length next.now.units.items ≡ c.now.program.functions }
    requires members { length next.now.members.items ≡ c.now.program.functions }
    requires args { EachAt next.now.members.items (λ g m. length m.args.items ≡ arity c.now.program g) }
    ensures { OnOk result (all.new.items ≡ all.old.items ++ map sig_of (own_ties c.now.program c.now.names next.now)) }
{
    for f in 0..c.functions() {
        add_function(all, c, next, f)?;
    }
    Ok(())
}

// Appends the next signals of a site's registers.
fn add_site(all: &mut Vec<Sig>, p: &Planned, next: &Bank, k: u32) -> Result<(), AllocError>
    requires least { 1 ≤ k }
    requires most { k ≤ p.now.program.sites }
    requires sites { length next.now.sites.items ≡ suc p.now.program.sites }
    ensures { OnOk result (all.new.items ≡ all.old.items ++ map sig_of (site_ties p.now.program p.now.choice next.now.sites.items k)) }
{
    let site = next.sites[k as usize];
    if !p.kept(k) {
        all.extend_from_slice(&[site.sent, site.got])?;
        return Ok(());
    }
    all.extend_from_slice(&[site.sent, site.got, site.keep])?;
    Ok(())
}

// The next signals of all registers, in the order of the registers.
fn register_sources(alloc: Global, p: &Planned, next: &Bank) -> Result<Vec<Sig>, AllocError>
    requires units { length next.now.units.items ≡ p.now.program.functions }
    requires members { length next.now.members.items ≡ p.now.program.functions }
    requires args { EachAt next.now.members.items (λ g m. length m.args.items ≡ arity p.now.program g) }
    requires sites { length next.now.sites.items ≡ suc p.now.program.sites }
    ensures { IfOk result (λ v. v.items ≡ map sig_of (register_ties p.now.program p.now.names p.now.choice next.now)) }
{
    let c = program(p);
    let mut all = Vec::new(alloc);
    add_functions(&mut all, c, next)?;
    for k in 1..c.sites() + 1 {
        add_site(&mut all, p, next, k)?;
    }
    Ok(all)
}

// Appends the signals that the named wires of the bodies copy.
fn add_bodies(all: &mut Vec<Sig>, c: &Checked, controls: &Controls) -> Result<(), AllocError>
    requires ends { length controls.now.ends.items ≡ c.now.program.functions }
    requires loops { length controls.now.loops.items ≡ c.now.program.functions }
    ensures { OnOk result (all.new.items ≡ all.old.items ++ map sig_of (ties (body_ties c.now.names controls.now) c.now.program.functions)) }
{
    for f in 0..c.functions() {
        all.push(controls.ends[f as usize])?;
        all.push(controls.loops[f as usize])?;
    }
    Ok(())
}

// Appends the signals that the named wires of a site copy. Its first named wire is `place`.
fn add_call(
    all: &mut Vec<Sig>,
    p: &Planned,
    controls: &Controls,
    k: u32,
    first: u32,
    place: Sig,
) -> Result<(), AllocError>
    requires least { 1 ≤ k }
    requires most { k ≤ p.now.program.sites }
    requires wants { length controls.now.wants.items ≡ suc p.now.program.sites }
    requires rets { length controls.now.rets.items ≡ suc p.now.program.sites }
    requires goes { length controls.now.goes.items ≡ suc p.now.program.sites }
    requires place { place.0 ≡ want_wire p.now.program p.now.choice first k }
    ensures { OnOk result (all.new.items ≡ all.old.items ++ map sig_of (call_ties p.now.program p.now.choice first controls.now k)) }
{
    let c = program(p);
    let want = controls.wants[k as usize];
    let ret = controls.rets[k as usize];
    let go = controls.goes[k as usize];
    if !p.arbiter(c.callee(k)) {
        all.extend_from_slice(&[want, ret, place])?;
        return Ok(());
    }
    all.extend_from_slice(&[want, ret, go, go])?;
    Ok(())
}

// The signals that the named wires copy, in the order of the wires. The first named wire has the number `first`.
fn wire_sources(
    alloc: Global,
    p: &Planned,
    controls: &Controls,
    first: u32,
) -> Result<Vec<Sig>, AllocError>
    requires ends { length controls.now.ends.items ≡ p.now.program.functions }
    requires loops { length controls.now.loops.items ≡ p.now.program.functions }
    requires wants { length controls.now.wants.items ≡ suc p.now.program.sites }
    requires rets { length controls.now.rets.items ≡ suc p.now.program.sites }
    requires goes { length controls.now.goes.items ≡ suc p.now.program.sites }
    requires room { first + length (layout_wires p.now.program p.now.names p.now.choice) < 4294967296 }
    ensures { IfOk result (λ v. v.items ≡ map sig_of (wire_ties p.now.program p.now.names p.now.choice first controls.now)) }
{
    let c = program(p);
    let mut all = Vec::new(alloc);
    add_bodies(&mut all, c, controls)?;
    for k in 1..c.sites() + 1 {
        let place = Sig(first + all.len() as u32);
        add_call(&mut all, p, controls, k, first, place)?;
    }
    all.push(controls.goes[0])?;
    Ok(all)
}

// Sets all registers and named wires.
fn set_all(
    alloc: Global,
    net: &mut Net,
    p: &Planned,
    pins: &Pins,
    next: &Bank,
    controls: &Controls,
) -> Result<(), AllocError>
    requires room { CanGrow net.old 0 }
    requires grown { Grows (declared_net p.now.program p.now.names p.now.choice) net.old }
    requires pins { ArePins p.now.program p.now.names p.now.choice pins.now }
    requires next { BankFits p.now.program net.old next.now }
    requires controls { ControlsFit p.now.program net.old controls.now }
    ensures tidy { IsTidy net.new }
    ensures set { OnOk result (IsSet p.now.program p.now.names p.now.choice pins.now next.now controls.now net.old net.new) }
{
    let c = program(p);
    let nexts = register_sources(alloc, p, next)?;
    let copies = wire_sources(alloc, p, controls, pins.first_wire)?;
    set_nexts(net, pins.first_register, nexts.as_slice());
    set_copies(net, pins.first_wire, copies.as_slice());
    Ok(())
}

fn add_output(net: &mut Net, name: &str, s: Sig) -> Result<(), NoMemory>
    requires tidy { IsTidy net.old }
    requires lasting { is_temp name.now ≡ false }
    requires known { s.0 < length net.old.signals }
    requires room { length net.old.outputs < count_max }
    requires free { refusal net.old name.now ≡ None }
    ensures tidy { IsTidy net.new }
    ensures added { OnOk result (net.new ≡ with_output net.old name.now s.0) }
{
    match net.output(name, s) {
        Ok(()) => Ok(()),
        Err(NetErr::NoMemory) => Err(NoMemory),
        Err(NetErr::BadName | NetErr::NameTaken) => unreachable!(),
    }
}

/// Sets the next signals of all registers, makes each named wire a copy, and adds the outputs.
pub fn finish(
    alloc: Global,
    net: &mut Net,
    p: &Planned,
    pins: &Pins,
    next: &Bank,
    controls: &Controls,
) -> Result<(), NoMemory>
    requires room { CanGrow net.old 0 }
    requires grown { Grows (declared_net p.now.program p.now.names p.now.choice) net.old }
    requires settled { IsSettled net.old }
    requires pins { ArePins p.now.program p.now.names p.now.choice pins.now }
    requires fits { PinsFit p.now.program net.old pins.now }
    requires next { BankFits p.now.program net.old next.now }
    requires controls { ControlsFit p.now.program net.old controls.now }
    ensures tidy { IsTidy net.new }
    ensures done { OnOk result (Finishes p.now.program p.now.names p.now.choice pins.now next.now controls.now net.old net.new) }
{
    let c = program(p);
    let main = main_function(c);
    let unit = pins.bank.units[main as usize];
    set_all(alloc, net, p, pins, next, controls)?;
    add_output(net, "done", unit.fin)?;
    add_output(net, "result", unit.res)?;
    Ok(())
}
