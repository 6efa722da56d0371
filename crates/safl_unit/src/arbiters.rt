//! Arbiters: for each site of a unit, whether the unit rests and no site before it wants.

ghost use Rattle.std.specs.Prelude.{◌≡◌, ℕ, suc, ◌+◌, ◌*◌, ◌^◌, ◌≤◌, ◌∷◌, true, not, map, length, IfOk, OnOk};
ghost use Rattle.safl_net.specs.Names.{IsTidy};
ghost use Rattle.safl_net.specs.Growth.{Val, Wired};
ghost use Rattle.safl_net.specs.Bits.{on};
ghost use Rattle.safl_lower.specs.Sources.{IsSource, Builds, CanGrow};
ghost use Rattle.safl_lower.specs.Heights.{AllWithin};
ghost use Rattle.safl_lower.specs.Rows.{AreBits, frees, row_at};
ghost use Rattle.safl_unit.specs.Arbiters.{site_row, AreRanks, AllRowsFree};
ghost use Rattle.safl_word.specs.Lists.{summed};
ghost use Rattle.safl_unit.specs.Cycles.{PinsFit};

use crate::arrivals::{callee_of, function_count, site_count, unit_of};
use crate::pins::{Outcomes, Pins};
use safl_lower::gates::inverse;
use safl_lower::rows::{no_rows, push_at};
use safl_lower::trees::free_before;
use safl_net::{Net, Sig};
use safl_sites::Planned;
use safl_word::NoMemory;
use std::alloc::Global;

/// For each unit, the bits that say that its sites want, in order; and for each site, its place among the sites of its
/// unit.
#[derive(Drop)]
pub struct Wants {
    pub rows: Vec<Vec<Sig>>,
    pub ranks: Vec<usize>,
}

/// Collects the bits that say that sites want, by unit.
pub fn unit_wants(alloc: Global, p: &Planned, outcomes: &Outcomes) -> Result<Wants, NoMemory>
    requires wants { length outcomes.now.wants.items ≡ suc p.now.program.sites }
    ensures count { IfOk result (λ w. length w.rows.items ≡ p.now.program.functions) }
    ensures rows { IfOk result (λ w. (u : ℕ) → row_at w.rows.items u ≡ site_row p.now.program outcomes.now.wants.items u p.now.program.sites) }
    ensures ranks_count { IfOk result (λ w. length w.ranks.items ≡ suc p.now.program.sites) }
    ensures ranks { IfOk result (λ w. AreRanks p.now.program outcomes.now.wants.items w.ranks.items) }
{
    let functions = function_count(p);
    let mut rows = no_rows(alloc, functions)?;
    let mut ranks = vec![in alloc; 0usize]?;
    let sites = site_count(p);
    for done in 0..sites {
        let k = done + 1;
        let callee = callee_of(p, k);
        let unit = unit_of(p, callee);
        let row: &[Sig] = &rows[unit as usize];
        let rank = row.len();
        ranks.push(rank)?;
        let bit = outcomes.wants[k as usize].bit;
        push_at(&mut rows, unit as usize, bit)?;
    }
    Ok(Wants { rows, ranks })
}

/// For each site of a unit with an arbiter, whether the unit rests and no site before it wants. With at most 2^h sites,
/// this is at most 2h + 1 gates above the bits for wanting and for running.
pub fn unit_row(
    alloc: Global,
    net: &mut Net,
    arbiter: bool,
    wants: &[Sig],
    run: Sig,
) -> Result<Vec<Sig>, NoMemory>
    requires wants { AreBits net.old wants.now }
    requires run { IsSource net.old run 1 }
    requires room { CanGrow net.old (3 * length wants.now) }
    ensures tidy { IsTidy net.new }
    ensures built { OnOk result (Builds net.old net.new (3 * length wants.now)) }
    ensures fits { IfOk result (λ row. AreBits net.new row.items) }
    ensures long { IfOk result (λ row. arbiter ≡ true → length row.items ≡ length wants.now) }
    ensures value { IfOk result (λ row. (v : Val) → Wired net.new v → arbiter ≡ true → map (on v) row.items ≡ frees v (not (on v run)) wants.now) }
    ensures height { (h : ℕ) → length wants.now ≤ 2 ^ h → IfOk result (λ row. AllWithin net.new (run ∷ wants.now) (2 * h + 1) row.items) }
{
    let mut row = Vec::new(alloc);
    if !arbiter {
        return Ok(row);
    }
    if wants.len() == 0 {
        return Ok(row);
    }
    let rests = inverse(net, run)?;
    free_before(net, wants, rests, &mut row)?;
    Ok(row)
}

/// For each unit with an arbiter, whether the unit rests and no site before it wants, for each of its sites.
pub fn unit_frees(
    alloc: Global,
    net: &mut Net,
    p: &Planned,
    pins: &Pins,
    rows: &Vec<Vec<Sig>>,
) -> Result<Vec<Vec<Sig>>, NoMemory>
    requires pins { PinsFit p.now.program net.old pins.now }
    requires count { length rows.now.items ≡ p.now.program.functions }
    requires rows { (u : ℕ) → AreBits net.old (row_at rows.now.items u) }
    requires room { CanGrow net.old (3 * summed (λ u. length (row_at rows.now.items u)) p.now.program.functions) }
    ensures tidy { IsTidy net.new }
    ensures built { OnOk result (Builds net.old net.new (3 * summed (λ u. length (row_at rows.now.items u)) p.now.program.functions)) }
    ensures done { IfOk result (λ out. AllRowsFree p.now.program p.now.choice net.new pins.now rows.now.items out.items) }
{
    let functions = function_count(p);
    let mut out = Vec::new(alloc);
    for f in 0..functions {
        let arbiter = p.arbiter(f);
        let unit = pins.bank.units[f as usize];
        let row = unit_row(alloc, net, arbiter, &rows[f as usize], unit.run)?;
        out.push(row)?;
    }
    Ok(out)
}
