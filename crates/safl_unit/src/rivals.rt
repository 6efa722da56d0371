//! Rivals: for each function, whether another function of its unit starts.

ghost use Rattle.std.specs.Prelude.{◌≡◌, ℕ, ◌*◌, ◌<◌, ◌≤◌, List, length, IfOk, OnOk};
ghost use Rattle.safl_net.specs.declared.cell.Sig.{Sig};
ghost use Rattle.safl_net.specs.Names.{IsTidy};
ghost use Rattle.safl_net.specs.Growth.{Val, Wired};
ghost use Rattle.safl_lower.specs.Sources.{Builds, CanGrow};
ghost use Rattle.safl_lower.specs.Tables.{on_in, IsBitIn};
ghost use Rattle.safl_lower.specs.Rows.{bit_joins, row_at, total};
ghost use Rattle.safl_lower.specs.Joints.{IsSeveralOf, IsSeveralIn};
ghost use Rattle.safl_unit.specs.Stages.{TestsFit};
ghost use Rattle.safl_unit.specs.Edges.{entry_row, others_on, ShowsRivals, ShowsOthers};

use crate::arrivals::{function_count, unit_of};
use crate::names::has_peers;
use safl_lower::gates::{and_not, or_some};
use safl_lower::rows::{join_several, no_rows, push_some};
use safl_lower::trees::Several;
use safl_net::{Net, Sig};
use safl_sites::Planned;
use safl_word::NoMemory;
use std::alloc::Global;

/// For each function, the bit that says that another function of its unit has its bit 1.
pub fn function_rivals(
    alloc: Global,
    net: &mut Net,
    p: &Planned,
    entries: &[Option<Sig>],
) -> Result<Vec<Option<Sig>>, NoMemory>
    requires entries { TestsFit p.now.program net.old entries.now }
    requires room { CanGrow net.old (7 * p.now.program.functions) }
    ensures tidy { IsTidy net.new }
    ensures built { OnOk result (Builds net.old net.new (7 * p.now.program.functions)) }
    ensures done { IfOk result (λ bits. ShowsRivals p.now.program net.new entries.now bits.items) }
{
    let functions = function_count(p);
    let rows = unit_entries(alloc, p, entries)?;
    let several = join_several(alloc, net, &rows)?;
    let mut all = Vec::new(alloc);
    for f in 0..functions {
        let unit = unit_of(p, f);
        let many = has_peers(p.checked(), f);
        let entry = entries[f as usize];
        let rival = member_rival(net, many, &several[unit as usize], entry)?;
        all.push(rival)?;
    }
    Ok(all)
}

// For each unit, the bits of its functions, in order.
fn unit_entries(
    alloc: Global,
    p: &Planned,
    entries: &[Option<Sig>],
) -> Result<Vec<Vec<Sig>>, NoMemory>
    requires count { length entries.now ≡ p.now.program.functions }
    ensures count { IfOk result (λ rows. length rows.items ≡ p.now.program.functions) }
    ensures rows { IfOk result (λ rows. (u : ℕ) → row_at rows.items u ≡ entry_row p.now.program entries.now u p.now.program.functions) }
    ensures gates { IfOk result (λ rows. total bit_joins rows.items ≤ p.now.program.functions) }
{
    let functions = function_count(p);
    let mut rows = no_rows(alloc, functions)?;
    for f in 0..functions {
        let unit = unit_of(p, f);
        let entry = entries[f as usize];
        push_some(&mut rows, unit as usize, entry)?;
    }
    Ok(rows)
}

// Whether another bit of a unit than `own` is 1. None if the unit has no other functions.
fn member_rival(
    net: &mut Net,
    many: bool,
    several: &Option<Several>,
    own: Option<Sig>,
) -> Result<Option<Sig>, NoMemory>
    requires several { (row : List Sig) × IsSeveralIn net.old row several.now }
    requires own { IsBitIn net.old own }
    requires room { CanGrow net.old 3 }
    ensures tidy { IsTidy net.new }
    ensures built { OnOk result (Builds net.old net.new 3) }
    ensures fits { IfOk result (λ o. IsBitIn net.new o) }
    ensures value { (row : List Sig) → IsSeveralIn net.old row several.now → IfOk result (λ o. ShowsOthers net.new many row own o) }
{
    if !many {
        return Ok(None);
    }
    match several {
        None => Ok(None),
        Some(several) => several_rival(net, *several, own),
    }
}

// Whether another of several bits than `own` is 1.
fn several_rival(net: &mut Net, several: Several, own: Option<Sig>) -> Result<Option<Sig>, NoMemory>
    requires several { (row : List Sig) × IsSeveralOf net.old row several }
    requires own { IsBitIn net.old own }
    requires room { CanGrow net.old 3 }
    ensures tidy { IsTidy net.new }
    ensures built { OnOk result (Builds net.old net.new 3) }
    ensures fits { IfOk result (λ o. IsBitIn net.new o) }
    ensures value { (row : List Sig) → IsSeveralOf net.old row several → IfOk result (λ o. (v : Val) → Wired net.new v → on_in v o ≡ others_on v row own) }
{
    match own {
        None => Ok(Some(several.any)),
        Some(own) => {
            let others = and_not(net, several.any, own)?;
            let rival = or_some(net, several.two, others)?;
            Ok(Some(rival))
        }
    }
}
