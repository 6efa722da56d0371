//! Precedence: how many layers of operators may stand in a context without parentheses.
//!
//! A context with all 8 layers takes any expression.

ghost use Rattle.std.specs.Prelude.{◌≡◌};
ghost use Rattle.safl_tree.specs.Printable.{is_binary, right_context, left_context, layers_of};
ghost use Rattle.safl_tree.specs.Shown.{shown_tree};

use crate::{Expr, Node};
use safl_word::Primitive;

/// Whether the operator stands between its operands.
pub(crate) fn is_binary(p: Primitive) -> bool
    ensures { result ≡ is_binary p }
{
    !matches!(
        p,
        Primitive::Not | Primitive::Cat | Primitive::Bits(..) | Primitive::Ext(_)
    )
}

/// The layers that the context right of an operator has: those below the operator's own.
pub(crate) fn right_context(p: Primitive) -> u8
    ensures { result ≡ right_context p }
{
    match p {
        Primitive::Not | Primitive::Mul => 0,
        Primitive::Add | Primitive::Sub => 1,
        Primitive::Shl | Primitive::Shr => 2,
        Primitive::Eq
        | Primitive::Ne
        | Primitive::Lt
        | Primitive::Le
        | Primitive::Gt
        | Primitive::Ge => 3,
        Primitive::And => 4,
        Primitive::Xor => 5,
        Primitive::Or => 6,
        Primitive::Cat | Primitive::Bits(..) | Primitive::Ext(_) => 8,
    }
}

/// The layers that the context left of an operator has: those up to the operator's own if it chains, otherwise those
/// below it. Comparisons do not chain.
pub(crate) fn left_context(p: Primitive) -> u8
    ensures { result ≡ left_context p }
{
    match p {
        Primitive::Mul
        | Primitive::Add
        | Primitive::Sub
        | Primitive::Shl
        | Primitive::Shr
        | Primitive::And
        | Primitive::Xor
        | Primitive::Or => right_context(p) + 1,
        _ => right_context(p),
    }
}

/// The layers that a context needs for an expression without parentheses.
pub(crate) fn layers_of(e: &Expr) -> u8
    ensures { result ≡ layers_of (shown_tree e.now) }
{
    match &e.node {
        Node::Num(_) | Node::Sized(..) | Node::Var(_) | Node::Call(..) => 0,
        Node::If(..) | Node::Let(..) | Node::Case(..) => 8,
        Node::Op(p, _) if is_binary(*p) => right_context(*p) + 1,
        Node::Op(..) => 0,
    }
}
