//! The circuit of a whole body.

ghost use Rattle.std.specs.Prelude.{◌≡◌, ℕ, ◌<◌, ◌≤◌, [], ◌∷◌, IfOk};
ghost use Rattle.safl_word.specs.Limits.{width_max};
ghost use Rattle.safl_net.specs.Names.{IsTidy};
ghost use Rattle.safl_net.specs.Growth.{Val, Wired, Grows};
ghost use Rattle.safl_net.specs.Bits.{on, gate};
ghost use Rattle.safl_lower.specs.Sources.{IsSource, Builds, CanGrow};
ghost use Rattle.safl_lower.specs.Tables.{taken, one_word, LoadFits};
ghost use Rattle.safl_lower.specs.Bits.{ReadyAt};
ghost use Rattle.safl_lower.specs.Bodies.{CanLower, IsLowered};
ghost use Rattle.safl_lower.specs.Lowering.{gives, Shaped};

use crate::calls_by_site::spread;
use crate::gates::{constant, zero};
use crate::group::group_end;
use crate::loads::Load;
use crate::lowered::{Body, Lowered, Out, Ports, Readiness, SiteTable};
use crate::merge::merge;
use crate::ready::and_ready;
use crate::terms::lower_term;
use safl_net::{Net, Sig};
use safl_term::Checked;
use safl_word::{NoMemory, Word};
use std::alloc::{AllocError, Global};

/// The circuit of a function's body between these ports. It adds only temporaries, at most 32 for each term of the body
/// and 32 more, and they close no loop of cells. The net is tidy before and after. Fails only if out of memory; some
/// temporaries may then remain in the net.
pub fn lower(
    alloc: Global,
    c: &Checked,
    f: u32,
    net: &mut Net,
    ports: Ports,
) -> Result<Body, NoMemory>
    requires function { f < c.now.program.functions }
    requires tidy { IsTidy net.old }
    requires able { CanLower c.now f net.old ports }
    ensures tidy { IsTidy net.new }
    ensures kept { Grows net.old net.new }
    ensures done { IfOk result (λ b. IsLowered c.now f ports net.old net.new b) }
{
    let Ports { run, args, sites } = ports;
    let table = SiteTable {
        first: c.first_site(f),
        ports: sites,
    };
    let mut slots = args;
    let mut out = Out {
        wants: Vec::new(alloc),
        loops: Vec::new(alloc),
    };
    let lowered = lower_term(alloc, net, &mut out, &mut slots, &table, run, c.body(f))?;
    let ending = end(alloc, net, run, c.width(f), lowered)?;
    let Out { wants, loops } = out;
    let calls = spread(alloc, table.first, table.ports.len(), wants)?;
    let first_member = c.unit(f);
    let members = group_end(c, f) - first_member;
    let tails = merge(alloc, net, first_member, members, &loops)?;
    Ok(Body {
        end: ending,
        wants: calls,
        loops: tails,
    })
}

// The end of a body whose group has results of width `width`: its bit is 1 if the body runs and is ready, and it has
// the body's word. A body that only makes tail calls is never ready: its bit is 0.
fn end(alloc: Global, net: &mut Net, run: Sig, width: u8, body: Lowered) -> Result<Load, NoMemory>
    requires run { IsSource net.old run 1 }
    requires some { 1 ≤ width }
    requires most { width ≤ width_max }
    requires ready { ReadyAt net.old body.ready }
    requires room { CanGrow net.old 2 }
    ensures built { Builds net.old net.new 2 }
    ensures fits { (w : ℕ) → Shaped net.old body w → (body.ready ≡ Readiness.Never → w ≡ width) → IfOk result (λ l. LoadFits net.new l (w ∷ [])) }
    ensures value { IfOk result (λ l. (v : Val) → Wired net.new v → taken v l ≡ one_word (gate (on v run) (gives v body))) }
{
    match body.ready {
        Readiness::Never => {
            let bit = zero(net)?;
            let value = no_value(net, width)?;
            let load = one_load(alloc, bit, value)?;
            Ok(load)
        }
        _ => {
            let bit = and_ready(net, run, body.ready)?;
            let load = one_load(alloc, bit, body.value)?;
            Ok(load)
        }
    }
}

// A load of one word.
fn one_load(alloc: Global, bit: Sig, value: Sig) -> Result<Load, AllocError>
    ensures bit { IfOk result (λ l. l.bit ≡ bit) }
    ensures operands { IfOk result (λ l. l.words.items ≡ value ∷ []) }
{
    let words = vec![in alloc; value]?;
    Ok(Load { bit, words })
}

// Stands for the word of a body that only makes tail calls. Nothing reads it.
fn no_value(net: &mut Net, width: u8) -> Result<Sig, NoMemory>
    requires some { 1 ≤ width }
    requires most { width ≤ width_max }
    requires room { CanGrow net.old 1 }
    ensures built { Builds net.old net.new 1 }
    ensures fits { IfOk result (λ s. IsSource net.new s width) }
{
    match Word::new(width, 0) {
        Some(word) => constant(net, word),
        None => unreachable!(),
    }
}
