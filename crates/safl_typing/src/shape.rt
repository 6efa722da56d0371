//! What an operator requires of the widths of its operands.

ghost use Rattle.std.specs.Prelude.{◌≡◌};
ghost use Rattle.safl_typing.specs.Rewriting.{shape, takes_width};
ghost use Rattle.safl_typing.specs.PlainTyped.{shown_shape};

use safl_word::Primitive;

/// Whether the result of an operator has the width of all its operands.
pub fn has_operands_width(operator: Primitive) -> bool
    ensures { result ≡ takes_width (shape operator) }
{
    match operator {
        Primitive::Add => true,
        Primitive::Sub => true,
        Primitive::Mul => true,
        Primitive::And => true,
        Primitive::Or => true,
        Primitive::Xor => true,
        Primitive::Not => true,
        Primitive::Eq => false,
        Primitive::Ne => false,
        Primitive::Lt => false,
        Primitive::Le => false,
        Primitive::Gt => false,
        Primitive::Ge => false,
        Primitive::Shl => false,
        Primitive::Shr => false,
        Primitive::Cat => false,
        Primitive::Bits(_, _) => false,
        Primitive::Ext(_) => false,
    }
}

/// What an operator requires of the widths of its operands.
#[derive(Clone, Copy)]
pub enum Shape {
    /// All operands have one width, and so has the result.
    Alike,
    /// All operands have one width, and the result has one bit.
    Comparing,
    /// Any widths. The result has the width of the first operand.
    Shifting,
    /// Any widths that the operator's row in the table of widths allows. The row gives the width of the result.
    Resizing,
}

/// What this operator requires of the widths of its operands.
pub fn shape_of(operator: Primitive) -> Shape
    ensures { shown_shape result ≡ shape operator }
{
    match operator {
        Primitive::Add => Shape::Alike,
        Primitive::Sub => Shape::Alike,
        Primitive::Mul => Shape::Alike,
        Primitive::And => Shape::Alike,
        Primitive::Or => Shape::Alike,
        Primitive::Xor => Shape::Alike,
        Primitive::Not => Shape::Alike,
        Primitive::Eq => Shape::Comparing,
        Primitive::Ne => Shape::Comparing,
        Primitive::Lt => Shape::Comparing,
        Primitive::Le => Shape::Comparing,
        Primitive::Gt => Shape::Comparing,
        Primitive::Ge => Shape::Comparing,
        Primitive::Shl => Shape::Shifting,
        Primitive::Shr => Shape::Shifting,
        Primitive::Cat => Shape::Resizing,
        Primitive::Bits(_, _) => Shape::Resizing,
        Primitive::Ext(_) => Shape::Resizing,
    }
}
