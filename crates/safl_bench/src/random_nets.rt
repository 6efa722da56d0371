//! Nets of wires of one bit, with random operators and operands.

ghost use Rattle.std.specs.Prelude.{◌≡◌, ◌+◌, ◌<◌, ◌≤◌, ◌^◌, All, Some, length, IfOk};
ghost use Rattle.safl_word.specs.Limits.{count_max};
ghost use Rattle.safl_net.specs.Names.{IsTidy};
ghost use Rattle.safl_net.specs.Widths.{op_width};
ghost use Rattle.safl_bench.specs.Bits.{OfBits, ones};

use safl_net::{Net, Op, Sig};
use safl_order::{Ordered, order};
use safl_word::{NoMemory, Primitive, Word};
use std::alloc::Global;

/// The greatest number of wires of a net.
pub const WIRES_MAX: u32 = 1_000_000_000;

// Operands are chosen among this many of the latest signals.
const NEAR: u32 = 32;

// The next number of the random sequence.
fn next(number: u32) -> u32 {
    number.wrapping_mul(1_664_525).wrapping_add(1_013_904_223)
}

// One of the latest signals, chosen by a random number.
fn near(count: u32, number: u32) -> Sig
    requires { 0 < count }
    ensures { result.0 < count }
{
    Sig(count - 1 - number % count.min(NEAR))
}

fn operator(number: u32) -> Primitive
    ensures { op_width (Op.Apply result) (ones 2) ≡ Some 1 }
{
    match number % 5 {
        0 => Primitive::And,
        1 => Primitive::Or,
        2 => Primitive::Xor,
        3 => Primitive::Sub,
        _ => Primitive::Lt,
    }
}

// Adds a wire, on operands near it, or on the input and one of those. Without the input most of the net would come to
// constants.
fn add_wire(net: &mut Net, number: u32) -> Result<Sig, NoMemory>
    requires bits { OfBits net.old }
    requires room { length net.old.signals < count_max }
    ensures bits { OfBits net.new }
    ensures more { length net.new.signals ≤ length net.old.signals + 1 }
    ensures last { IfOk result (λ s. s.0 < length net.new.signals) }
    ensures outputs { net.new.outputs ≡ net.old.outputs }
{
    let count = net.signals();
    let a = near(count, number >> 23);
    let b = near(count, number >> 18);
    let c = near(count, number >> 13);
    match number >> 28 {
        0 => wire(
            net,
            Op::Const(Word::from_parts(1, u128::from(number >> 27 & 1))),
            &[],
        ),
        1 | 2 => wire(net, Op::Copy, &[a]),
        3 | 4 => wire(net, Op::Mux, &[c, a, b]),
        5 => wire(net, Op::Apply(Primitive::Not), &[a]),
        15 => wire(net, Op::Apply(operator(number >> 8)), &[Sig(0), b]),
        _ => wire(net, Op::Apply(operator(number >> 8)), &[a, b]),
    }
}

fn wire(net: &mut Net, op: Op, operands: &[Sig]) -> Result<Sig, NoMemory>
    requires bits { OfBits net.old }
    requires room { length net.old.signals < count_max }
    requires known { All (λ s. s.0 < length net.old.signals) operands.now }
    requires fits { op_width op (ones (length operands.now)) ≡ Some 1 }
    ensures bits { OfBits net.new }
    ensures more { length net.new.signals ≤ length net.old.signals + 1 }
    ensures last { IfOk result (λ s. s.0 < length net.new.signals) }
    ensures outputs { net.new.outputs ≡ net.old.outputs }
{
    net.temp(op, operands)
}

// A net with an input and `wires` wires, whose last wire is an output.
fn mixed(alloc: Global, wires: u32, seed: u32) -> Result<Net, NoMemory>
    requires few { wires ≤ WIRES_MAX }
    ensures tidy { IfOk result (λ n. IsTidy n) }
    ensures few { IfOk result (λ n. length n.signals < 2 ^ 31) }
{
    let mut net = Net::new(alloc);
    let Ok(input) = net.input("x", 1) else {
        return Err(NoMemory);
    };
    let mut last = input;
    let mut number = seed;
    'wires: for i in 0..wires {
        number = next(number);
        last = add_wire(&mut net, number)?;
    }
    let Ok(()) = net.output("o", last) else {
        return Err(NoMemory);
    };
    Ok(net)
}

/// A random net of `wires` wires, in order of evaluation.
pub fn ordered(alloc: Global, wires: u32, seed: u32) -> Result<Ordered, NoMemory>
    requires few { wires ≤ WIRES_MAX }
    ensures tidy { IfOk result (λ o. IsTidy o.net) }
    ensures few { IfOk result (λ o. length o.net.signals < 2 ^ 31) }
{
    let net = mixed(alloc, wires, seed)?;
    match order(alloc, net) {
        Ok(ordered) => Ok(ordered),
        Err(_) => Err(NoMemory),
    }
}
