//! The circuits of all bodies, and their outcomes.

ghost use Rattle.std.specs.Prelude.{◌≡◌, ℕ, suc, ◌+◌, ◌*◌, ◌<◌, ◌≤◌, ◌==◌, ◌++◌, [], ◌∷◌, cond, length, IfOk, OnOk};
ghost use Rattle.safl_sites.specs.Plan.{Choice};
ghost use Rattle.safl_term.specs.Checked.{IsChecked};
ghost use Rattle.safl_term.specs.Sizes.{nodes, body_nodes};
ghost use Rattle.safl_net.specs.Names.{IsTidy};
ghost use Rattle.safl_net.specs.Bits.{on};
ghost use Rattle.safl_lower.specs.declared.loads.Load.{Load as load};
ghost use Rattle.safl_lower.specs.Sources.{IsSource, Builds, CanGrow};
ghost use Rattle.safl_lower.specs.Rows.{load_joins, row_at, total};
ghost use Rattle.safl_lower.specs.Loads.{load_cost, loads_cost};
ghost use Rattle.safl_circuit.specs.Equations.{path};
ghost use Rattle.safl_unit.specs.Cycles.{PinsFit, InEachCycle};
ghost use Rattle.safl_unit.specs.Stages.{HasReturns, HasOutcomes};
ghost use Rattle.safl_unit.specs.Outcomes.{AreOwnPorts, HasBody, PushesLoads, maybe_load};

use crate::arrivals::program;
use crate::names::has_peers;
use crate::pins::{Outcomes, Pins, Returns};
use safl_lower::gates::both;
use safl_lower::loads::Load;
use safl_lower::rows::{join_loads, no_rows, push_load};
use safl_lower::{Body, Ports, SitePorts, lower};
use safl_net::{Net, Sig};
use safl_sites::Planned;
use safl_term::Checked;
use safl_word::NoMemory;
use std::alloc::{AllocError, Global};

/// The outcomes of the bodies so far. The tail calls to each function are collected in a row.
#[derive(Drop)]
pub struct Gathered {
    pub ends: Vec<Load>,
    pub wants: Vec<Load>,
    pub rows: Vec<Vec<Load>>,
}

/// The outcomes of all bodies: that each ends, with its word; tail calls to functions, of which the one of the earliest
/// body counts; and that sites are wanted, with their arguments. It adds only temporaries, at most 33 for each term and
/// 33 for each function, and they close no loop of cells. The net is tidy before and after. Fails only if out of
/// memory; some temporaries may then remain in the net.
pub fn lower_bodies(
    alloc: Global,
    net: &mut Net,
    p: &Planned,
    pins: &Pins,
    returns: &Returns,
) -> Result<Outcomes, NoMemory>
    requires pins { PinsFit p.now.program net.old pins.now }
    requires returns { HasReturns p.now.program p.now.choice net.old pins.now returns.now }
    requires room { CanGrow net.old (33 * body_nodes p.now.program p.now.program.functions + 33 * p.now.program.functions) }
    ensures tidy { IsTidy net.new }
    ensures built { OnOk result (Builds net.old net.new (33 * body_nodes p.now.program p.now.program.functions + 33 * p.now.program.functions)) }
    ensures done { IfOk result (λ o. HasOutcomes p.now.program p.now.choice net.new pins.now o) }
{
    let c = p.checked();
    let mut all = no_outcomes(alloc, c.functions(), pins)?;
    for f in 0..c.functions() {
        let body = body_of(alloc, net, p, f, pins, returns)?;
        let Body { end, wants, loops } = body;
        let mut own = wants;
        all.ends.push(end)?;
        all.wants.append(&mut own)?;
        push_loops(&mut all.rows, c.unit(f), loops)?;
    }
    let Gathered { ends, wants, rows } = all;
    let loops = join_loads(alloc, net, &rows)?;
    Ok(Outcomes { ends, loops, wants })
}

// The outcomes before any body: only the call of main from outside.
fn no_outcomes(alloc: Global, functions: u32, pins: &Pins) -> Result<Gathered, NoMemory>
    ensures ends { IfOk result (λ o. o.ends.items ≡ []) }
    ensures count { IfOk result (λ o. length o.rows.items ≡ functions) }
    ensures rows { IfOk result (λ o. (h : ℕ) → row_at o.rows.items h ≡ []) }
    ensures wants { IfOk result (λ o. (x : load) × (o.wants.items ≡ x ∷ []) × (x.bit ≡ pins.now.start) × (x.words.items ≡ pins.now.words.items)) }
{
    let rows = no_rows(alloc, functions)?;
    let call = main_call(alloc, pins)?;
    let mut wants = Vec::new(alloc);
    wants.push(call)?;
    Ok(Gathered {
        ends: Vec::new(alloc),
        wants,
        rows,
    })
}

// The call of main from outside.
fn main_call(alloc: Global, pins: &Pins) -> Result<Load, AllocError>
    ensures bit { IfOk result (λ x. x.bit ≡ pins.now.start) }
    ensures operands { IfOk result (λ x. x.words.items ≡ pins.now.words.items) }
{
    let words = Vec::from_slice(alloc, &pins.words)?;
    Ok(Load {
        bit: pins.start,
        words,
    })
}

// The circuit of a function's body.
fn body_of(
    alloc: Global,
    net: &mut Net,
    p: &Planned,
    f: u32,
    pins: &Pins,
    returns: &Returns,
) -> Result<Body, NoMemory>
    requires function { f < p.now.program.functions }
    requires pins { PinsFit p.now.program net.old pins.now }
    requires returns { HasReturns p.now.program p.now.choice net.old pins.now returns.now }
    requires room { CanGrow net.old (32 * nodes (p.now.program.body f) + 33) }
    ensures tidy { IsTidy net.new }
    ensures built { OnOk result (Builds net.old net.new (32 * nodes (p.now.program.body f) + 33)) }
    ensures done { IfOk result (λ b. HasBody p.now.checked p.now.choice net.new pins.now f b) }
{
    let c = program(p);
    let run = body_path(net, c, f, pins)?;
    let args = Vec::from_slice(alloc, &pins.bank.members[f as usize].args)?;
    let sites = own_ports(alloc, c, f, &returns.ports)?;
    lower(alloc, c, f, net, Ports { run, args, sites })
}

// The bit that says that the body of a function runs.
fn body_path(net: &mut Net, c: &Checked, f: u32, pins: &Pins) -> Result<Sig, NoMemory>
    requires function { f < c.now.program.functions }
    requires pins { PinsFit c.now.program net.old pins.now }
    requires room { CanGrow net.old 1 }
    ensures tidy { IsTidy net.new }
    ensures built { OnOk result (Builds net.old net.new 1) }
    ensures fits { IfOk result (λ s. IsSource net.new s 1) }
    ensures shows { (P : Choice) → IfOk result (λ s. InEachCycle c.now.program P net.new pins.now (λ v r i. on v s ≡ path c.now.program r f)) }
{
    let run = pins.bank.units[f as usize].run;
    if !has_peers(c, f) {
        return Ok(run);
    }
    both(net, run, pins.bank.members[f as usize].at)
}

// The ports of the sites in a function's body.
fn own_ports(
    alloc: Global,
    c: &Checked,
    f: u32,
    ports: &[SitePorts],
) -> Result<Vec<SitePorts>, AllocError>
    requires checked { IsChecked c.now }
    requires function { f < c.now.program.functions }
    requires ports { length ports.now ≡ suc c.now.program.sites }
    ensures { IfOk result (λ own. AreOwnPorts c.now ports.now f own.items) }
{
    let first = c.first_site(f) as usize;
    let end = first + c.own_sites(f) as usize;
    let own = Vec::from_slice(alloc, &ports[first..end])?;
    Ok(own)
}

// Appends the tail calls of a body, to the functions of its group, to the rows of those functions.
fn push_loops(
    rows: &mut Vec<Vec<Load>>,
    first_member: u32,
    own: Vec<Option<Load>>,
) -> Result<(), NoMemory>
    requires within { first_member + length own.items ≤ length rows.old.items }
    ensures count { OnOk result (length rows.new.items ≡ length rows.old.items) }
    ensures pushed { OnOk result (PushesLoads first_member (length own.items) own.items rows.old.items rows.new.items) }
    ensures gates { OnOk result (total load_joins rows.new.items ≤ total load_joins rows.old.items + loads_cost own.items) }
{
    let mut place = first_member as usize;
    for load in own {
        push_maybe(rows, place, load)?;
        place += 1;
    }
    Ok(())
}

// Appends a load, if there is one, to the row at `place`.
fn push_maybe(rows: &mut Vec<Vec<Load>>, place: usize, load: Option<Load>) -> Result<(), NoMemory>
    requires place { place < length rows.old.items }
    ensures count { length rows.new.items ≡ length rows.old.items }
    ensures rows { OnOk result ((i : ℕ) → row_at rows.new.items i ≡ row_at rows.old.items i ++ cond (i == place) (maybe_load load) []) }
    ensures gates { OnOk result (total load_joins rows.new.items ≤ total load_joins rows.old.items + load_cost load) }
{
    match load {
        None => Ok(()),
        Some(load) => push_load(rows, place, load),
    }
}
