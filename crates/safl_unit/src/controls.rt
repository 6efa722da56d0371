//! The signals that the named wires copy.

ghost use Rattle.std.specs.Prelude.{◌≡◌, map, IfOk, OnOk};
ghost use Rattle.safl_net.specs.Names.{IsTidy};
ghost use Rattle.safl_lower.specs.Sources.{Builds, CanGrow};
ghost use Rattle.safl_lower.specs.Tables.{load_bit, bit_or};
ghost use Rattle.safl_unit.specs.Finished.{GivesControls};

use crate::pins::{Controls, Outcomes, Returns};
use safl_lower::gates::zero;
use safl_lower::loads::Load;
use safl_net::{Net, Sig};
use safl_word::NoMemory;
use std::alloc::{AllocError, Global};

/// The bits for functions and sites: that a body ends, that a tail call starts a function, and that a site is wanted,
/// is delivered to, or starts.
pub fn controls(
    alloc: Global,
    net: &mut Net,
    returns: &Returns,
    outcomes: &Outcomes,
    goes: &[Sig],
) -> Result<Controls, NoMemory>
    requires room { CanGrow net.old 1 }
    ensures tidy { IsTidy net.new }
    ensures built { OnOk result (Builds net.old net.new 1) }
    ensures done { GivesControls result net.old net.new returns.now outcomes.now goes.now }
{
    let never = zero(net)?;
    let ends = bits_of(alloc, &outcomes.ends)?;
    let loops = bits_or(alloc, &outcomes.loops, never)?;
    let wants = bits_of(alloc, &outcomes.wants)?;
    let rets = Vec::from_slice(alloc, &returns.ret)?;
    let goes = Vec::from_slice(alloc, goes)?;
    Ok(Controls {
        ends,
        loops,
        wants,
        rets,
        goes,
    })
}

fn bits_of(alloc: Global, loads: &[Load]) -> Result<Vec<Sig>, AllocError>
    ensures { IfOk result (λ bits. bits.items ≡ map load_bit loads.now) }
{
    let mut bits = Vec::new(alloc);
    for load in loads {
        bits.push(load.bit)?;
    }
    Ok(bits)
}

// The bits of loads. An absent load has the bit `other`.
fn bits_or(alloc: Global, loads: &[Option<Load>], other: Sig) -> Result<Vec<Sig>, AllocError>
    ensures { IfOk result (λ bits. bits.items ≡ map (bit_or other) loads.now) }
{
    let mut bits = Vec::new(alloc);
    for load in loads {
        bits.push(bit_of(load, other))?;
    }
    Ok(bits)
}

fn bit_of(load: &Option<Load>, other: Sig) -> Sig
    ensures { result ≡ bit_or other load.now }
{
    match load {
        Some(load) => load.bit,
        None => other,
    }
}
