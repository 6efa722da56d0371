//! Tables of the literals of signals.

ghost use Rattle.std.specs.Prelude.{◌≡◌, ℕ, ◌+◌, ◌*◌, ◌<◌, ◌≤◌, length, IfOk};
ghost use Rattle.safl_word.specs.Limits.{variables_max};
ghost use Rattle.safl_net.specs.Netlist.{is_input, is_register};
ghost use Rattle.safl_aig.specs.Tables.{lits_at, variable_lits, width_if, bits_before, input_count, first_and, source_lits, kind_test};

use safl_aiger::Lit;
use safl_net::{Net, Sig, SigKind};
use std::alloc::{AllocError, Global};

/// The literals of a signal's bits, the lowest first.
#[derive(Drop)]
pub struct Pins {
    pub bits: Vec<Lit>,
}

/// The literals of a signal.
pub fn literals(table: &[Pins], s: Sig) -> &[Lit]
    requires { s.0 < length table.now }
    ensures { result.now ≡ lits_at table.now s.0 }
{
    &table[s.0 as usize].bits
}

/// The number of bits of all signals of one kind.
pub fn count_bits(net: &Net, sort: SigKind) -> u64
    ensures { result ≡ bits_before (kind_test sort) net.now (length net.now.signals) }
{
    let mut sum = 0;
    'signals: for i in 0..net.signals() {
        sum += u64::from(width_if(net, sort, Sig(i)));
    }
    sum
}

// The width of a signal if it is of this kind, else 0.
fn width_if(net: &Net, sort: SigKind, s: Sig) -> u32
    requires { s.0 < length net.now.signals }
    ensures width { result ≡ width_if (kind_test sort) net.now s.0 }
    ensures few { result < 256 }
{
    if net.kind(s) == sort {
        u32::from(net.width(s))
    } else {
        0
    }
}

/// A table with variables for the bits of inputs and registers. Wires have no literals yet. `inputs` is the number of
/// bits of all inputs: the variables of registers follow theirs.
pub fn sources(alloc: Global, net: &Net, inputs: u32) -> Result<Vec<Pins>, AllocError>
    requires inputs { inputs ≡ input_count net.now }
    requires few { first_and net.now ≤ variables_max }
    ensures long { IfOk result (λ t. length t.items ≡ length net.now.signals) }
    ensures lits { IfOk result (λ t. (s : ℕ) → s < length net.now.signals → lits_at t.items s ≡ source_lits net.now s) }
{
    let mut table = Vec::new(alloc);
    let mut input = 1;
    let mut latch = 1 + inputs;
    'signals: for i in 0..net.signals() {
        let bits = source(alloc, net, Sig(i), input, latch)?;
        table.push(Pins { bits })?;
        input += width_if(net, SigKind::Input, Sig(i));
        latch += width_if(net, SigKind::Reg, Sig(i));
    }
    Ok(table)
}

// The variables of an input or a register. `input` and `latch` are the next free variables of each kind.
fn source(alloc: Global, net: &Net, s: Sig, input: u32, latch: u32) -> Result<Vec<Lit>, AllocError>
    requires known { s.0 < length net.now.signals }
    requires input { input ≡ 1 + bits_before is_input net.now s.0 }
    requires latch { latch ≡ 1 + input_count net.now + bits_before is_register net.now s.0 }
    requires inputs_few { input + width_if is_input net.now s.0 ≤ variables_max }
    requires latches_few { latch + width_if is_register net.now s.0 ≤ variables_max }
    ensures { IfOk result (λ r. r.items ≡ source_lits net.now s.0) }
{
    match net.kind(s) {
        SigKind::Input => variables(alloc, input, net.width(s)),
        SigKind::Reg => variables(alloc, latch, net.width(s)),
        SigKind::Wire => Ok(Vec::new(alloc)),
    }
}

// The literals of `count` variables, from `first` on.
fn variables(alloc: Global, first: u32, count: u8) -> Result<Vec<Lit>, AllocError>
    requires { first + count ≤ variables_max }
    ensures { IfOk result (λ r. r.items ≡ variable_lits first count) }
{
    let mut all = Vec::new(alloc);
    for i in 0..count {
        all.push(Lit(2 * (first + u32::from(i))))?;
    }
    Ok(all)
}
