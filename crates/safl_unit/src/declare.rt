//! Declaring the ports, registers and named wires of a circuit.

ghost use Rattle.std.specs.Prelude.{◌≡◌, ◌+◌, ◌*◌, ◌<◌, ◌≤◌, [], ◌∷◌, map, length, Some, None, false, slice_get, IfOk, OnOk};
ghost use Rattle.safl_word.specs.Limits.{width_max};
ghost use Rattle.safl_term.specs.Program.{arity};
ghost use Rattle.safl_term.specs.Checked.{IsChecked};
ghost use Rattle.safl_sites.specs.Plan.{IsPlan};
ghost use Rattle.safl_circuit.specs.Equations.{many};
ghost use Rattle.safl_circuit.specs.Layout.{lines, site_lines, function_wires, site_wires, layout_wires};
ghost use Rattle.safl_net.specs.Names.{IsTidy};
ghost use Rattle.safl_net.specs.Making.{refusal};
ghost use Rattle.safl_net.specs.Settled.{IsSettled};
ghost use Rattle.safl_lower.specs.Sources.{HasRoom};
ghost use Rattle.safl_unit.specs.Cycles.{PinsFit};
ghost use Rattle.safl_unit.specs.Ties.{numbered};
ghost use Rattle.safl_unit.specs.Finished.{input_line, open_register, open_wire, declared_net, ArePins};
ghost use Rattle.safl_unit.specs.Declaring.{with_signals, MayAdd, unit_head, at_line, argument_lines, function_lines, port_lines, arbiter_line, Pinned};
ghost use Rattle.safl_unit.specs.Declaring.{SitePinned, UnitPinned, AtPinned, own_lines, AllFunctionsPinned, call_lines, AllSitesPinned, call_wires};

use crate::arrivals::program;
use crate::names::{argument_name, has_peers, headed, main_function, numbered};
use crate::pins::{Bank, MemberPins, Pins, SitePins, UnitPins};
use safl_net::{Net, NetErr, Sig};
use safl_sites::Planned;
use safl_term::Checked;
use safl_word::{NoMemory, Word};
use std::alloc::Global;

fn add_input(net: &mut Net, name: &str, width: u8) -> Result<Sig, NoMemory>
    requires some { 1 ≤ width }
    requires most { width ≤ width_max }
    requires room { HasRoom net.old 1 }
    requires free { refusal net.old name.now ≡ None }
    ensures added { OnOk result (net.new ≡ with_signals net.old (input_line (name.now, width) ∷ [])) }
    ensures next { IfOk result (λ s. s.0 ≡ length net.old.signals) }
{
    match net.input(name, width) {
        Ok(s) => Ok(s),
        Err(NetErr::NoMemory) => Err(NoMemory),
        Err(NetErr::BadName | NetErr::NameTaken) => unreachable!(),
    }
}

// Adds a register that resets to 0.
fn add_register(net: &mut Net, name: &str, width: u8) -> Result<Sig, NoMemory>
    requires some { 1 ≤ width }
    requires most { width ≤ width_max }
    requires room { HasRoom net.old 1 }
    requires free { refusal net.old name.now ≡ None }
    ensures added { OnOk result (net.new ≡ with_signals net.old (open_register (name.now, width) ∷ [])) }
    ensures next { IfOk result (λ s. s.0 ≡ length net.old.signals) }
{
    match net.reg(name, Word::from_low_bits(width, 0)) {
        Ok(s) => Ok(s),
        Err(NetErr::NoMemory) => Err(NoMemory),
        Err(NetErr::BadName | NetErr::NameTaken) => unreachable!(),
    }
}

// Adds a wire of width 1.
fn add_wire(net: &mut Net, name: &str) -> Result<Sig, NoMemory>
    requires room { HasRoom net.old 1 }
    requires free { refusal net.old name.now ≡ None }
    ensures added { OnOk result (net.new ≡ with_signals net.old (open_wire (name.now, 1) ∷ [])) }
    ensures next { IfOk result (λ s. s.0 ≡ length net.old.signals) }
{
    match net.wire(name, 1) {
        Ok(s) => Ok(s),
        Err(NetErr::NoMemory) => Err(NoMemory),
        Err(NetErr::BadName | NetErr::NameTaken) => unreachable!(),
    }
}

// The registers of the unit of `f`. They are added for the first function of the unit, and found for the others.
fn add_unit(
    alloc: Global,
    net: &mut Net,
    c: &Checked,
    f: u32,
    units: &[UnitPins],
) -> Result<UnitPins, NoMemory>
    requires function { f < c.now.program.functions }
    requires before { length units.now ≡ f }
    requires room { HasRoom net.old 3 }
    requires free { MayAdd net.old (map open_register (unit_head c.now.program c.now.names f)) }
    ensures added { OnOk result (net.new ≡ with_signals net.old (map open_register (unit_head c.now.program c.now.names f))) }
    ensures order { IfOk result (λ u. UnitPinned c.now.program c.now.names f (length net.old.signals) u) }
    ensures same { IfOk result (λ u. (c.now.program.unit f ≡ f → ⊥) → slice_get units.now (c.now.program.unit f) ≡ Some u) }
{
    let unit = c.unit(f);
    if unit != f {
        return Ok(units[unit as usize]);
    }
    let name = c.name(f);
    let run = add_register(net, headed(alloc, "run$", name)?.as_str(), 1)?;
    let fin = add_register(net, headed(alloc, "fin$", name)?.as_str(), 1)?;
    let res = add_register(net, headed(alloc, "res$", name)?.as_str(), c.width(f))?;
    Ok(UnitPins { run, fin, res })
}

// Adds the register that says that a function runs, if its unit has other functions.
fn add_at(alloc: Global, net: &mut Net, c: &Checked, f: u32, run: Sig) -> Result<Sig, NoMemory>
    requires function { f < c.now.program.functions }
    requires room { HasRoom net.old 1 }
    requires free { MayAdd net.old (map open_register (at_line c.now.program c.now.names f)) }
    ensures added { OnOk result (net.new ≡ with_signals net.old (map open_register (at_line c.now.program c.now.names f))) }
    ensures order { IfOk result (λ s. AtPinned c.now.program c.now.names f (length net.old.signals) s) }
    ensures lone { IfOk result (λ s. many c.now.program f ≡ false → s ≡ run) }
{
    if !has_peers(c, f) {
        return Ok(run);
    }
    let name = headed(alloc, "at$", c.name(f))?;
    add_register(net, name.as_str(), 1)
}

// Adds the registers of a function's arguments.
fn add_arguments(alloc: Global, net: &mut Net, c: &Checked, f: u32) -> Result<Vec<Sig>, NoMemory>
    requires function { f < c.now.program.functions }
    requires room { HasRoom net.old (arity c.now.program f) }
    requires free { MayAdd net.old (map open_register (argument_lines c.now.program c.now.names f)) }
    ensures added { OnOk result (net.new ≡ with_signals net.old (map open_register (argument_lines c.now.program c.now.names f))) }
    ensures order { IfOk result (λ v. v.items ≡ numbered (length net.old.signals) (arity c.now.program f)) }
{
    let mut args = Vec::new(alloc);
    for i in 0..c.params(f) {
        let name = argument_name(alloc, c.name(f), c.param_name(f, i))?;
        let s = add_register(net, name.as_str(), c.param_width(f, i))?;
        args.push(s)?;
    }
    Ok(args)
}

// The registers of a function, and those of its unit.
#[derive(Drop)]
struct FunctionPins {
    unit: UnitPins,
    member: MemberPins,
}

// Adds the registers of a function, after those of its unit if it is the unit's first.
fn add_function(
    alloc: Global,
    net: &mut Net,
    c: &Checked,
    f: u32,
    units: &[UnitPins],
) -> Result<FunctionPins, NoMemory>
    requires function { f < c.now.program.functions }
    requires before { length units.now ≡ f }
    requires room { HasRoom net.old (4 + arity c.now.program f) }
    requires free { MayAdd net.old (map open_register (function_lines c.now.program c.now.names f)) }
    ensures added { OnOk result (net.new ≡ with_signals net.old (map open_register (function_lines c.now.program c.now.names f))) }
    ensures pinned { IfOk result (λ r. Pinned c.now.program c.now.names f (length net.old.signals) units.now r.unit r.member) }
{
    let unit = add_unit(alloc, net, c, f, units)?;
    let at = add_at(alloc, net, c, f, unit.run)?;
    let args = add_arguments(alloc, net, c, f)?;
    Ok(FunctionPins {
        unit,
        member: MemberPins { at, args },
    })
}

// The registers of all functions, and those of their units.
#[derive(Drop)]
struct Functions {
    units: Vec<UnitPins>,
    members: Vec<MemberPins>,
}

fn add_functions(alloc: Global, net: &mut Net, c: &Checked) -> Result<Functions, NoMemory>
    requires room { HasRoom net.old (20 * c.now.program.functions) }
    requires free { MayAdd net.old (map open_register (own_lines c.now.program c.now.names)) }
    ensures added { OnOk result (net.new ≡ with_signals net.old (map open_register (own_lines c.now.program c.now.names))) }
    ensures pinned { IfOk result (λ r. AllFunctionsPinned c.now.program c.now.names (length net.old.signals) r.units.items r.members.items) }
{
    let mut units = Vec::new(alloc);
    let mut members = Vec::new(alloc);
    for f in 0..c.functions() {
        let pins = add_function(alloc, net, c, f, units.as_slice())?;
        units.push(pins.unit)?;
        members.push(pins.member)?;
    }
    Ok(Functions { units, members })
}

// Adds the registers of a site.
fn add_site(
    alloc: Global,
    net: &mut Net,
    p: &Planned,
    k: u32,
    units: &[UnitPins],
) -> Result<SitePins, NoMemory>
    requires least { 1 ≤ k }
    requires most { k ≤ p.now.program.sites }
    requires units { length units.now ≡ p.now.program.functions }
    requires room { HasRoom net.old 3 }
    requires free { MayAdd net.old (map open_register (site_lines p.now.program p.now.choice k)) }
    ensures added { OnOk result (net.new ≡ with_signals net.old (map open_register (site_lines p.now.program p.now.choice k))) }
    ensures pinned { IfOk result (λ s. SitePinned p.now.program p.now.choice k (length net.old.signals) units.now s) }
{
    let c = program(p);
    let callee = c.callee(k);
    let sent = add_register(net, numbered(alloc, "sent$", k)?.as_str(), 1)?;
    let got = add_register(net, numbered(alloc, "got$", k)?.as_str(), 1)?;
    if !p.kept(k) {
        let keep = units[callee as usize].res;
        return Ok(SitePins { sent, got, keep });
    }
    let keep = add_register(net, numbered(alloc, "keep$", k)?.as_str(), c.width(callee))?;
    Ok(SitePins { sent, got, keep })
}

// Adds the registers of all sites, in the order of their numbers.
fn add_sites(
    alloc: Global,
    net: &mut Net,
    p: &Planned,
    units: &[UnitPins],
) -> Result<Vec<SitePins>, NoMemory>
    requires units { length units.now ≡ p.now.program.functions }
    requires room { HasRoom net.old (3 * p.now.program.sites + 3) }
    requires free { MayAdd net.old (map open_register (call_lines p.now.program p.now.choice)) }
    ensures added { OnOk result (net.new ≡ with_signals net.old (map open_register (call_lines p.now.program p.now.choice))) }
    ensures pinned { IfOk result (λ s. AllSitesPinned p.now.program p.now.choice (length net.old.signals) units.now s.items) }
{
    let c = program(p);
    let mut sites = Vec::new(alloc);
    sites.push(SitePins {
        sent: Sig(0),
        got: Sig(0),
        keep: Sig(0),
    })?;
    for k in 1..c.sites() + 1 {
        let pins = add_site(alloc, net, p, k, units)?;
        sites.push(pins)?;
    }
    Ok(sites)
}

// Adds the named wires of a function.
fn add_body_wires(alloc: Global, net: &mut Net, c: &Checked, f: u32) -> Result<(), NoMemory>
    requires function { f < c.now.program.functions }
    requires room { HasRoom net.old 2 }
    requires free { MayAdd net.old (map open_wire (function_wires c.now.names f)) }
    ensures { OnOk result (net.new ≡ with_signals net.old (map open_wire (function_wires c.now.names f))) }
{
    let name = c.name(f);
    add_wire(net, headed(alloc, "end$", name)?.as_str())?;
    add_wire(net, headed(alloc, "loop$", name)?.as_str())?;
    Ok(())
}

// Adds the named wires of all functions.
fn add_all_body_wires(alloc: Global, net: &mut Net, c: &Checked) -> Result<(), NoMemory>
    requires room { HasRoom net.old (2 * c.now.program.functions) }
    requires free { MayAdd net.old (map open_wire (lines (function_wires c.now.names) c.now.program.functions)) }
    ensures { OnOk result (net.new ≡ with_signals net.old (map open_wire (lines (function_wires c.now.names) c.now.program.functions))) }
{
    for f in 0..c.functions() {
        add_body_wires(alloc, net, c, f)?;
    }
    Ok(())
}

// Adds the wire that says that the arbiter of a unit grants a site, if the unit has one.
fn add_arbiter_wire(
    alloc: Global,
    net: &mut Net,
    p: &Planned,
    k: u32,
    callee: u32,
) -> Result<(), NoMemory>
    requires callee { callee ≡ p.now.program.callee k }
    requires function { callee < p.now.program.functions }
    requires room { HasRoom net.old 1 }
    requires free { MayAdd net.old (map open_wire (arbiter_line p.now.program p.now.choice k)) }
    ensures { OnOk result (net.new ≡ with_signals net.old (map open_wire (arbiter_line p.now.program p.now.choice k))) }
{
    if !p.arbiter(callee) {
        return Ok(());
    }
    add_wire(net, numbered(alloc, "arb$", k)?.as_str())?;
    Ok(())
}

// Adds the named wires of a site.
fn add_call_wires(alloc: Global, net: &mut Net, p: &Planned, k: u32) -> Result<(), NoMemory>
    requires least { 1 ≤ k }
    requires most { k ≤ p.now.program.sites }
    requires room { HasRoom net.old 4 }
    requires free { MayAdd net.old (map open_wire (site_wires p.now.program p.now.choice k)) }
    ensures { OnOk result (net.new ≡ with_signals net.old (map open_wire (site_wires p.now.program p.now.choice k))) }
{
    let c = program(p);
    let callee = c.callee(k);
    add_wire(net, numbered(alloc, "want$", k)?.as_str())?;
    add_wire(net, numbered(alloc, "ret$", k)?.as_str())?;
    add_arbiter_wire(alloc, net, p, k, callee)?;
    add_wire(net, numbered(alloc, "go$", k)?.as_str())?;
    Ok(())
}

// Adds the named wires of all sites.
fn add_all_call_wires(alloc: Global, net: &mut Net, p: &Planned) -> Result<(), NoMemory>
    requires room { HasRoom net.old (4 * p.now.program.sites + 4) }
    requires free { MayAdd net.old (map open_wire (call_wires p.now.program p.now.choice)) }
    ensures { OnOk result (net.new ≡ with_signals net.old (map open_wire (call_wires p.now.program p.now.choice))) }
{
    let c = program(p);
    for k in 1..c.sites() + 1 {
        add_call_wires(alloc, net, p, k)?;
    }
    Ok(())
}

// Adds an input port for each argument of a function.
fn add_ports(alloc: Global, net: &mut Net, c: &Checked, f: u32) -> Result<Vec<Sig>, NoMemory>
    requires function { f < c.now.program.functions }
    requires room { HasRoom net.old (arity c.now.program f) }
    requires free { MayAdd net.old (map input_line (port_lines c.now.program c.now.names f)) }
    ensures added { OnOk result (net.new ≡ with_signals net.old (map input_line (port_lines c.now.program c.now.names f))) }
    ensures order { IfOk result (λ v. v.items ≡ numbered (length net.old.signals) (arity c.now.program f)) }
{
    let mut words = Vec::new(alloc);
    for i in 0..c.params(f) {
        let name = headed(alloc, "in$", c.param_name(f, i))?;
        let s = add_input(net, name.as_str(), c.param_width(f, i))?;
        words.push(s)?;
    }
    Ok(words)
}

// Adds all named wires.
fn add_wires(alloc: Global, net: &mut Net, p: &Planned) -> Result<(), NoMemory>
    requires room { HasRoom net.old (2 * p.now.program.functions + 4 * p.now.program.sites + 5) }
    requires free { MayAdd net.old (map open_wire (layout_wires p.now.program p.now.names p.now.choice)) }
    ensures { OnOk result (net.new ≡ with_signals net.old (map open_wire (layout_wires p.now.program p.now.names p.now.choice))) }
{
    add_all_body_wires(alloc, net, p.checked())?;
    add_all_call_wires(alloc, net, p)?;
    add_wire(net, "go$main")?;
    Ok(())
}

/// A net with the ports, registers and named wires of a circuit, and their signals.
#[derive(Drop)]
pub struct Declared {
    pub net: Net,
    pub pins: Pins,
}

/// Declares the ports, registers and named wires of a program's circuit, in their order. Registers have no next signals
/// yet, and wires no cells.
pub fn declare(alloc: Global, p: &Planned) -> Result<Declared, NoMemory>
    ensures net { IfOk result (λ d. d.net ≡ declared_net p.now.program p.now.names p.now.choice) }
    ensures pins { IfOk result (λ d. ArePins p.now.program p.now.names p.now.choice d.pins) }
    ensures fits { IfOk result (λ d. PinsFit p.now.program d.net d.pins) }
    ensures tidy { IfOk result (λ d. IsTidy d.net) }
    ensures settled { IfOk result (λ d. IsSettled d.net) }
    ensures checked { IsChecked p.now.checked }
    ensures plan { IsPlan p.now.program p.now.arbiter p.now.kept }
{
    let c = program(p);
    let main = main_function(c);
    let mut net = Net::new(alloc);
    let start = add_input(&mut net, "start", 1)?;
    let words = add_ports(alloc, &mut net, c, main)?;
    let first_register = net.signals();
    let functions = add_functions(alloc, &mut net, c)?;
    let sites = add_sites(alloc, &mut net, p, functions.units.as_slice())?;
    let first_wire = net.signals();
    add_wires(alloc, &mut net, p)?;
    let bank = Bank {
        units: functions.units,
        members: functions.members,
        sites,
    };
    let pins = Pins {
        start,
        words,
        bank,
        first_register,
        first_wire,
    };
    Ok(Declared { net, pins })
}
