//! What stands at the top of an expression, with its parts.

ghost use Rattle.std.specs.Prelude.{◌≡◌};
ghost use Rattle.safl_typing.specs.Heads.{Known};
ghost use Rattle.safl_typing.specs.Marks.{IsMarked};
ghost use Rattle.safl_typing.specs.Opened.{shown_opened, IsOpenedMarked};
ghost use Rattle.safl_typing.specs.Plain.{shown_expression};

use crate::expression::{Bound, Expression, Marks};
use safl_tree::Name;
use safl_word::{Primitive, Raw};

/// What stands at the top of an expression. Its fields are those of `Expression`, and it borrows the parts.
#[derive(Clone, Copy)]
pub enum Opened<'a> {
    Number(u32, Raw),
    Sized(u32, u8, Raw),
    Variable(u32, &'a Name),
    If(u32, Marks, &'a Expression, &'a Expression, &'a Expression),
    Let(u32, Marks, &'a [Bound], &'a Expression),
    Op(u32, Marks, Primitive, &'a [Expression]),
    Call(u32, Marks, &'a Name, &'a [Expression]),
}

/// What stands at the top of an expression.
pub fn top(e: &Expression) -> Opened<'_>
    ensures shown { shown_expression e.now ≡ shown_opened result }
    ensures marked { (k : Known) → IsMarked k e.now → IsOpenedMarked k result }
{
    match e {
        Expression::Number(place, value) => Opened::Number(*place, *value),
        Expression::Sized(place, width, value) => Opened::Sized(*place, *width, *value),
        Expression::Variable(place, name) => Opened::Variable(*place, name),
        Expression::If(place, marks, condition, first, second) => {
            Opened::If(*place, *marks, condition, first, second)
        }
        Expression::Let(place, marks, bound, body) => Opened::Let(*place, *marks, bound, body),
        Expression::Op(place, marks, operator, operands) => {
            Opened::Op(*place, *marks, *operator, operands)
        }
        Expression::Call(place, marks, name, arguments) => {
            Opened::Call(*place, *marks, name, arguments)
        }
    }
}
