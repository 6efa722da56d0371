//! What units and functions get at the edge: ends, starts, loads and clears.

ghost use Rattle.std.specs.Prelude.{◌≡◌, ℕ, ◌+◌, ◌*◌, ◌<◌, ◌≤◌, List, length, map, Option, Some, None, IfOk, OnOk, slice_get};
ghost use Rattle.safl_word.specs.Limits.{sites_max};
ghost use Rattle.safl_term.specs.Checked.{IsChecked};
ghost use Rattle.safl_sites.specs.Plan.{IsPlan};
ghost use Rattle.safl_net.specs.Names.{IsTidy};
ghost use Rattle.safl_lower.specs.Sources.{Builds, CanGrow};
ghost use Rattle.safl_lower.specs.Rows.{maybe_one, row_at};
ghost use Rattle.safl_lower.specs.Tables.{entry_in, IsBitIn, BitsFit, SomeFit, JoinsSome};
ghost use Rattle.safl_unit.specs.Stages.{OutcomesFit, GoesFit};
ghost use Rattle.safl_unit.specs.Edges.{bit_of, ShowsEnds, ShowsArguments, ShowsStarts, ShowsClears, ShowsEntries};

use crate::pins::Outcomes;
use safl_lower::loads::{Load, add_bit, load_of};
use safl_lower::rows::{join_bits, join_loads, no_rows, push_at, push_load, push_some};
use safl_net::{Net, Sig};
use safl_sites::Planned;
use safl_term::Checked;
use safl_word::NoMemory;
use std::alloc::{AllocError, Global};

/// For each unit, the word of the first of its functions that ends.
pub fn unit_ends(
    alloc: Global,
    net: &mut Net,
    p: &Planned,
    outcomes: &Outcomes,
) -> Result<Vec<Option<Load>>, NoMemory>
    requires outcomes { OutcomesFit p.now.program net.old outcomes.now }
    requires room { CanGrow net.old (2 * p.now.program.functions) }
    ensures tidy { IsTidy net.new }
    ensures built { OnOk result (Builds net.old net.new (2 * p.now.program.functions)) }
    ensures done { IfOk result (λ all. ShowsEnds p.now.program net.new outcomes.now all.items) }
{
    let functions = function_count(p);
    let mut rows = no_rows(alloc, functions)?;
    for f in 0..functions {
        let end = &outcomes.ends[f as usize];
        let unit = unit_of(p, f);
        let load = load_of(alloc, end.bit, &end.words)?;
        push_load(&mut rows, unit as usize, load)?;
    }
    let all = join_loads(alloc, net, &rows)?;
    Ok(all)
}

/// For each function, the arguments of the first site that starts it.
pub fn function_loads(
    alloc: Global,
    net: &mut Net,
    p: &Planned,
    outcomes: &Outcomes,
    goes: &[Sig],
) -> Result<Vec<Option<Load>>, NoMemory>
    requires outcomes { OutcomesFit p.now.program net.old outcomes.now }
    requires goes { GoesFit p.now.program net.old goes.now }
    requires room { CanGrow net.old (17 * p.now.program.sites + 17) }
    ensures tidy { IsTidy net.new }
    ensures built { OnOk result (Builds net.old net.new (17 * p.now.program.sites + 17)) }
    ensures done { IfOk result (λ all. ShowsArguments p.now.program net.new outcomes.now goes.now all.items) }
{
    let functions = function_count(p);
    let mut rows = no_rows(alloc, functions)?;
    let sites = site_count(p);
    for k in 0..sites + 1 {
        let want = &outcomes.wants[k as usize];
        let callee = callee_of(p, k);
        let go = goes[k as usize];
        let load = load_of(alloc, go, &want.words)?;
        push_load(&mut rows, callee as usize, load)?;
    }
    let all = join_loads(alloc, net, &rows)?;
    Ok(all)
}

/// For each unit, the bit that says that a site starts it.
pub fn unit_starts(
    alloc: Global,
    net: &mut Net,
    p: &Planned,
    goes: &[Sig],
) -> Result<Vec<Option<Sig>>, NoMemory>
    requires goes { GoesFit p.now.program net.old goes.now }
    requires room { CanGrow net.old (p.now.program.sites + 1) }
    ensures tidy { IsTidy net.new }
    ensures built { OnOk result (Builds net.old net.new (p.now.program.sites + 1)) }
    ensures done { IfOk result (λ bits. ShowsStarts p.now.program net.new goes.now bits.items) }
{
    let functions = function_count(p);
    let mut rows = no_rows(alloc, functions)?;
    let sites = site_count(p);
    for k in 0..sites + 1 {
        let callee = callee_of(p, k);
        let unit = unit_of(p, callee);
        let go = goes[k as usize];
        push_at(&mut rows, unit as usize, go)?;
    }
    let all = join_bits(alloc, net, &rows)?;
    Ok(all)
}

/// For each unit, the bit that says that one of its functions ends or is looped to.
pub fn unit_clears(
    alloc: Global,
    net: &mut Net,
    p: &Planned,
    outcomes: &Outcomes,
    ends: &[Option<Load>],
) -> Result<Vec<Option<Sig>>, NoMemory>
    requires outcomes { OutcomesFit p.now.program net.old outcomes.now }
    requires count { length ends.now ≡ p.now.program.functions }
    requires ends { (ws : ℕ → List ℕ) × SomeFit net.old ends.now ws }
    requires room { CanGrow net.old p.now.program.functions }
    ensures tidy { IsTidy net.new }
    ensures built { OnOk result (Builds net.old net.new p.now.program.functions) }
    ensures done { IfOk result (λ bits. ShowsClears p.now.program net.new outcomes.now ends.now bits.items) }
{
    let functions = function_count(p);
    let mut rows = load_rows(alloc, ends, functions)?;
    for h in 0..functions {
        let bit = load_bit(&outcomes.loops[h as usize]);
        let unit = unit_of(p, h);
        push_some(&mut rows, unit as usize, bit)?;
    }
    let all = join_bits(alloc, net, &rows)?;
    Ok(all)
}

/// For each function, the bit that says that a site or a tail call starts it.
pub fn function_entries(
    alloc: Global,
    net: &mut Net,
    p: &Planned,
    outcomes: &Outcomes,
    loads: &[Option<Load>],
) -> Result<Vec<Option<Sig>>, NoMemory>
    requires outcomes { OutcomesFit p.now.program net.old outcomes.now }
    requires count { length loads.now ≡ p.now.program.functions }
    requires loads { (ws : ℕ → List ℕ) × SomeFit net.old loads.now ws }
    requires room { CanGrow net.old p.now.program.functions }
    ensures tidy { IsTidy net.new }
    ensures built { OnOk result (Builds net.old net.new p.now.program.functions) }
    ensures done { IfOk result (λ bits. ShowsEntries p.now.program net.new outcomes.now loads.now bits.items) }
{
    let functions = function_count(p);
    let mut all = load_bits(alloc, loads, functions)?;
    for h in 0..functions {
        let bit = load_bit(&outcomes.loops[h as usize]);
        add_some(net, &mut all, h as usize, bit)?;
    }
    Ok(all)
}

/// The program of a plan.
pub fn program(p: &Planned) -> &Checked
    ensures same { result.now ≡ p.now.checked }
    ensures checked { IsChecked p.now.checked }
    ensures plan { IsPlan p.now.program p.now.arbiter p.now.kept }
{
    let c = p.checked();
    let functions = c.functions();
    prove!(functions >= 1);
    c
}

/// The number of functions.
pub fn function_count(p: &Planned) -> u32
    ensures count { result ≡ p.now.program.functions }
    ensures checked { IsChecked p.now.checked }
{
    program(p).functions()
}

/// The number of sites.
pub fn site_count(p: &Planned) -> u32
    ensures count { result ≡ p.now.program.sites }
    ensures small { result ≤ sites_max }
{
    program(p).sites()
}

/// The unit of a function.
pub fn unit_of(p: &Planned, f: u32) -> u32
    requires { f < p.now.program.functions }
    ensures number { result ≡ p.now.program.unit f }
    ensures within { result ≤ f }
    ensures width { p.now.program.result result ≡ p.now.program.result f }
{
    program(p).unit(f)
}

/// The function that a site calls. Site 0 is the call of main from outside.
pub fn callee_of(p: &Planned, k: u32) -> u32
    requires { k ≤ p.now.program.sites }
    ensures number { result ≡ p.now.program.callee k }
    ensures within { result < p.now.program.functions }
{
    program(p).callee(k)
}

/// The function whose body has a site.
pub fn caller_of(p: &Planned, k: u32) -> u32
    requires least { 1 ≤ k }
    requires most { k ≤ p.now.program.sites }
    ensures number { result ≡ p.now.program.caller k }
    ensures within { result < p.now.program.functions }
{
    program(p).caller(k)
}

/// The bit of a load, if there is a load.
pub fn load_bit(load: &Option<Load>) -> Option<Sig>
    ensures { result ≡ bit_of load.now }
{
    match load {
        None => None,
        Some(load) => Some(load.bit),
    }
}

// The bits of the first `count` loads.
fn load_bits(
    alloc: Global,
    loads: &[Option<Load>],
    count: u32,
) -> Result<Vec<Option<Sig>>, AllocError>
    requires { length loads.now ≡ count }
    ensures bits { IfOk result (λ bits. bits.items ≡ map bit_of loads.now) }
{
    let mut bits = Vec::new(alloc);
    for i in 0..count {
        let bit = load_bit(&loads[i as usize]);
        bits.push(bit)?;
    }
    Ok(bits)
}

// For each of the first `count` loads, a row with its bit, or an empty row if there is no load.
fn load_rows(alloc: Global, loads: &[Option<Load>], count: u32) -> Result<Vec<Vec<Sig>>, NoMemory>
    requires { length loads.now ≡ count }
    ensures count { IfOk result (λ rows. length rows.items ≡ count) }
    ensures rows { IfOk result (λ rows. (i : ℕ) → row_at rows.items i ≡ maybe_one (bit_of (entry_in (slice_get loads.now i)))) }
{
    let mut rows = Vec::new(alloc);
    for i in 0..count {
        let bit = load_bit(&loads[i as usize]);
        let row = one_row(alloc, bit)?;
        rows.push(row)?;
    }
    Ok(rows)
}

// A row with a bit, or an empty row if there is none.
fn one_row(alloc: Global, bit: Option<Sig>) -> Result<Vec<Sig>, NoMemory>
    ensures bit { IfOk result (λ row. row.items ≡ maybe_one bit) }
{
    match bit {
        None => Ok(Vec::new(alloc)),
        Some(bit) => {
            let row = vec![in alloc; bit]?;
            Ok(row)
        }
    }
}

/// Joins a bit, if there is one, to the one at `place`.
pub fn add_some(
    net: &mut Net,
    bits: &mut Vec<Option<Sig>>,
    place: usize,
    bit: Option<Sig>,
) -> Result<(), NoMemory>
    requires place { place < length bits.old.items }
    requires fits { BitsFit net.old bits.old.items }
    requires bit { IsBitIn net.old bit }
    requires room { CanGrow net.old 1 }
    ensures built { Builds net.old net.new 1 }
    ensures count { length bits.new.items ≡ length bits.old.items }
    ensures fits { OnOk result (BitsFit net.new bits.new.items) }
    ensures shows { OnOk result (JoinsSome net.new place bit bits.old.items bits.new.items) }
{
    match bit {
        None => Ok(()),
        Some(bit) => add_bit(net, bits, place, bit),
    }
}
