//! The weight of a net, which bounds the ANDs that it takes, and the test that all registers reset to 0.

ghost use Rattle.std.specs.Prelude.{◌≡◌, ◌≢◌, ℕ, ◌+◌, ◌*◌, ◌<◌, ◌≤◌, ◌↔◌, List, length, IsNone, IfSome, IsTrue};
ghost use Rattle.safl_word.specs.Limits.{width_max};
ghost use Rattle.safl_net.specs.Netlist.{width_of};
ghost use Rattle.safl_net.specs.Making.{signal_widths};
ghost use Rattle.safl_net.specs.Valuations.{reset_state};
ghost use Rattle.safl_net.specs.Rules.{IsNetlist, CellFits};
ghost use Rattle.safl_net.specs.Stored.{cell_of};
ghost use Rattle.safl_bits.specs.Weights.{greatest, second};
ghost use Rattle.safl_word.specs.Lists.{summed};
ghost use Rattle.safl_aig.specs.Weights.{op_weight, signal_weight, output_weight, weight, AllZero, IsLeastNonzero};

use safl_net::{Cell, Net, Op, Sig, SigKind};
use safl_word::Primitive;

/// The first register whose word at reset is not 0.
pub fn first_nonzero(net: &Net) -> Option<Sig>
    ensures none { IsNone result ↔ AllZero net.now }
    ensures least { IfSome result (λ s. IsLeastNonzero net.now s.0) }
{
    'signals: for i in 0..net.signals() {
        if is_nonzero(net, Sig(i)) {
            return Some(Sig(i));
        }
    }
    None
}

fn is_nonzero(net: &Net, s: Sig) -> bool
    requires { s.0 < length net.now.signals }
    ensures { IsTrue result ↔ (reset_state net.now s.0 ≢ 0) }
{
    match net.kind(s) {
        SigKind::Reg => net.init(s).bits() != 0,
        _ => false,
    }
}

/// The weight of a net: the sum of the weights of its signals and outputs.
pub fn weight(net: &Net) -> u64
    ensures { result ≡ weight net.now }
{
    signals_weight(net) + outputs_weight(net)
}

fn signals_weight(net: &Net) -> u64
    ensures sum { result ≡ summed (signal_weight net.now) (length net.now.signals) }
    ensures few { result ≤ 70368744177664 }
{
    let mut sum = 0;
    'signals: for i in 0..net.signals() {
        sum += signal_weight(net, Sig(i));
    }
    sum
}

fn outputs_weight(net: &Net) -> u64
    ensures sum { result ≡ summed (output_weight net.now) (length net.now.outputs) }
    ensures few { result ≤ 70368744177664 }
{
    let mut sum = 0;
    'outputs: for i in 0..net.outputs() {
        sum += output_weight(net, i);
    }
    sum
}

fn output_weight(net: &Net, i: u32) -> u64
    requires { i < length net.now.outputs }
    ensures weight { result ≡ output_weight net.now i }
    ensures few { result ≤ 16384 }
{
    let _count = net.signals();
    bus_width(net, net.output_sig(i))
}

fn bus_width(net: &Net, s: Sig) -> u64
    requires { s.0 < length net.now.signals }
    ensures width { result ≡ width_of net.now s.0 }
    ensures few { result ≤ width_max }
{
    let _count = net.signals();
    u64::from(net.width(s))
}

fn signal_weight(net: &Net, s: Sig) -> u64
    requires { s.0 < length net.now.signals }
    ensures weight { result ≡ signal_weight net.now s.0 }
    ensures few { result ≤ 16384 }
{
    let _count = net.signals();
    let width = bus_width(net, s);
    match net.kind(s) {
        SigKind::Wire => match net.cell(s) {
            Some(cell) => cell_weight(net, cell, width),
            None => width,
        },
        _ => width,
    }
}

fn cell_weight(net: &Net, cell: &Cell, width: u64) -> u64
    requires netlist { IsNetlist net.now }
    requires fits { (w : ℕ) × CellFits net.now w (cell_of cell.now) }
    requires width { width ≤ width_max }
    ensures weight { result ≡ op_weight cell.now.op width (signal_widths net.now (cell_of cell.now).operands) }
    ensures few { result ≤ 16384 }
{
    match cell.operands.as_slice() {
        [] => op_weight(&cell.op, width, 0, 0),
        [a] => {
            let a = bus_width(net, *a);
            op_weight(&cell.op, width, 0, a)
        }
        [a, b] => {
            let a = bus_width(net, *a);
            let b = bus_width(net, *b);
            op_weight(&cell.op, width, b, a.max(b))
        }
        [c, a, b] => {
            let c = bus_width(net, *c);
            let a = bus_width(net, *a);
            let b = bus_width(net, *b);
            op_weight(&cell.op, width, a, c.max(a.max(b)))
        }
        _ => unreachable!(),
    }
}

// The weight of an operation whose result has width `width`. `other` is the width of its second operand, `most` the
// greatest width of an operand.
fn op_weight(op: &Op, width: u64, other: u64, most: u64) -> u64
    requires width { width ≤ width_max }
    requires second { other ≤ width_max }
    requires most { most ≤ width_max }
    ensures weight { (ws : List ℕ) → greatest ws ≡ most → second ws ≡ other → result ≡ op_weight op.now width ws }
    ensures few { result ≤ 16384 }
{
    match op {
        Op::Apply(Primitive::Mul) => width * width,
        Op::Apply(Primitive::Shl | Primitive::Shr) => 8 * width + other,
        _ => width.max(most),
    }
}
