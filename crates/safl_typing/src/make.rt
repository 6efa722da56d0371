//! Building expressions from their parts, and marking them.

ghost use Rattle.std.specs.Prelude.{◌≡◌, ◌≤◌, None, IfOk};
ghost use Rattle.safl_typing.specs.Rewriting.{If, Let, Op, Call, a_binding, no_binding, scrutinee, test_at};
ghost use Rattle.safl_typing.specs.Heads.{Known, callee, is_site};
ghost use Rattle.safl_typing.specs.Plain.{shown_expression, shown_expressions, shown_bindings};
ghost use Rattle.safl_typing.specs.Marks.{IsMarked, AreMarked, BoundMarked};

use crate::expression::{Bound, Expression};
use crate::marks::{marks_of_binding, marks_of_call, marks_of_choice, marks_of_operation};
use safl_tree::Name;
use safl_word::{NoMemory, Primitive};
use std::alloc::Global;

// The name that the selecting value of a `case` is bound to. No name of a source has a `$`.
const SCRUTINEE: &[u8] = b"$case";

/// An if.
pub fn choice(
    alloc: Global,
    place: u32,
    condition: Expression,
    first: Expression,
    second: Expression,
) -> Result<Expression, NoMemory>
    ensures made { IfOk result (λ x. shown_expression x ≡ If place (shown_expression condition) (shown_expression first) (shown_expression second)) }
    ensures marked { IfOk result (λ x. (k : Known) → IsMarked k condition → IsMarked k first → IsMarked k second → IsMarked k x) }
{
    let marks = marks_of_choice(&condition, &first, &second);
    let condition = Box::new(alloc, condition)?;
    let first = Box::new(alloc, first)?;
    let second = Box::new(alloc, second)?;
    Ok(Expression::If(place, marks, condition, first, second))
}

/// A let.
pub fn bind(
    alloc: Global,
    place: u32,
    bound: Vec<Bound>,
    body: Expression,
) -> Result<Expression, NoMemory>
    ensures made { IfOk result (λ x. shown_expression x ≡ Let place (shown_bindings bound.items) (shown_expression body)) }
    ensures marked { IfOk result (λ x. (k : Known) → BoundMarked k bound.items → IsMarked k body → IsMarked k x) }
{
    let marks = marks_of_binding(&bound, &body);
    let body = Box::new(alloc, body)?;
    Ok(Expression::Let(place, marks, bound, body))
}

/// An operator with its operands.
pub fn operate(place: u32, operator: Primitive, operands: Vec<Expression>) -> Expression
    ensures made { shown_expression result ≡ Op place operator (shown_expressions operands.items) }
    ensures marked { (k : Known) → AreMarked k operands.items → IsMarked k result }
{
    let marks = marks_of_operation(operator, &operands);
    Expression::Op(place, marks, operator, operands)
}

/// A call. `own` is the number of sites that the call itself is: 0 or 1.
pub fn call(place: u32, own: u32, name: Name, arguments: Vec<Expression>) -> Expression
    requires { own ≤ 1 }
    ensures made { shown_expression result ≡ Call place name (shown_expressions arguments.items) }
    ensures marked { (k : Known) → own ≡ is_site (callee k name) → AreMarked k arguments.items → IsMarked k result }
{
    let marks = marks_of_call(own, &arguments);
    Expression::Call(place, marks, name, arguments)
}

/// A let that binds the selecting value of a case.
pub fn scrutinise(
    alloc: Global,
    place: u32,
    value: Expression,
    body: Expression,
) -> Result<Expression, NoMemory>
    ensures made { IfOk result (λ x.
        shown_expression x ≡ Let place (a_binding place scrutinee None (shown_expression value) no_binding) (shown_expression body)) }
    ensures marked { IfOk result (λ x. (k : Known) → IsMarked k value → IsMarked k body → IsMarked k x) }
{
    let name = Name::new(alloc, SCRUTINEE)?;
    let scrutinee = Bound {
        place,
        name,
        width: None,
        value,
    };
    let bound = vec![in alloc; scrutinee]?;
    bind(alloc, place, bound, body)
}

/// The test whether the selecting value of a case equals a label.
pub fn test(alloc: Global, place: u32, label: Expression) -> Result<Expression, NoMemory>
    ensures made { IfOk result (λ x. shown_expression x ≡ test_at place (shown_expression label)) }
    ensures marked { IfOk result (λ x. (k : Known) → IsMarked k label → IsMarked k x) }
{
    let name = Name::new(alloc, SCRUTINEE)?;
    let variable = Expression::Variable(place, name);
    let operands = vec![in alloc; variable, label]?;
    Ok(operate(place, Primitive::Eq, operands))
}
