//! The width of an operation's result.

ghost use Rattle.std.specs.Prelude.{◌≡◌};
ghost use Rattle.safl_net.specs.Operands.{no_operand};
ghost use Rattle.safl_net.specs.Widths.{op_width, HasWord};
ghost use Rattle.safl_word.specs.Words.{IsWord};

use crate::cell::Op;
use safl_word::{Primitive, Word, result_width};

/// The width in bits of an operation's result, on operands of these widths. A constant has no operand, a copy one, a
/// multiplexer a condition of width 1 and two of equal width; for a primitive its table decides. None if the operands
/// do not fit, and for `Ext`, which has no cells.
pub fn op_width(op: Op, widths: &[u8]) -> Option<u8>
    ensures width { result ≡ op_width op widths.now }
    ensures word { HasWord op }
{
    width_of(&op, widths)
}

fn width_of(op: &Op, widths: &[u8]) -> Option<u8>
    ensures width { result ≡ op_width op.now widths.now }
    ensures word { HasWord op.now }
{
    match op {
        Op::Const(w) => const_width(w, widths),
        Op::Copy => match widths {
            [a] => Some(*a),
            _ => None,
        },
        Op::Mux => match widths {
            [c, a, b] if *c == 1 && *a == *b => Some(*a),
            _ => None,
        },
        Op::Apply(Primitive::Ext(_)) => None,
        Op::Apply(p) => result_width(*p, widths),
    }
}

fn const_width(w: &Word, widths: &[u8]) -> Option<u8>
    ensures width { result ≡ no_operand w.now.width widths.now }
    ensures word { IsWord w.now }
{
    let width = w.width();
    match widths {
        [] => Some(width),
        _ => None,
    }
}
