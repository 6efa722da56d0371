//! The marks of an expression: whether it takes any width, and how many call sites it has.

ghost use Rattle.std.specs.Prelude.{◌≡◌, ◌+◌, ◌≤◌, min};
ghost use Rattle.safl_word.specs.Limits.{sites_counted};
ghost use Rattle.safl_typing.specs.Rewriting.{flexible, all_flexible};
ghost use Rattle.safl_typing.specs.Heads.{Known, sites, sites_in, sites_bound};
ghost use Rattle.safl_typing.specs.Plain.{shown_expression, shown_expressions, shown_bindings};
ghost use Rattle.safl_typing.specs.Marks.{IsMarkOf, IsMarked, AreMarked, BoundMarked, both_flexible, MarksChoice, MarksBinding, MarksOperation, MarksCall};

use crate::expression::{Bound, Expression, Marks};
use crate::shape::has_operands_width;
use safl_word::Primitive;
use safl_word::limits::SITES_COUNTED;

/// The marks of an expression, as noted when it was made.
pub fn marks_of(e: &Expression) -> Marks
    ensures { (k : Known) → IsMarked k e.now → IsMarkOf k (shown_expression e.now) result }
{
    match e {
        Expression::Number(_, _) => unmarked(true),
        Expression::Sized(_, _, _) => unmarked(false),
        Expression::Variable(_, _) => unmarked(false),
        Expression::If(_, marks, _, _, _) => *marks,
        Expression::Let(_, marks, _, _) => *marks,
        Expression::Op(_, marks, _, _) => *marks,
        Expression::Call(_, marks, _, _) => *marks,
    }
}

// The marks of an expression without parts.
fn unmarked(flexible: bool) -> Marks
    ensures flexible { result.flexible ≡ flexible }
    ensures sites { result.sites ≡ 0 }
{
    Marks { flexible, sites: 0 }
}

/// Whether an expression is flexible, so that it takes any width: a number, or something made only of flexible parts.
pub fn is_flexible(e: &Expression) -> bool
    ensures { (k : Known) → IsMarked k e.now → result ≡ flexible (shown_expression e.now) }
{
    marks_of(e).flexible
}

/// Whether both branches are flexible.
pub fn are_both_flexible(first: &Expression, second: &Expression) -> bool
    ensures { (k : Known) → IsMarked k first.now → IsMarked k second.now → result ≡ both_flexible first.now second.now }
{
    is_flexible(first) && is_flexible(second)
}

/// Adds the call sites of an expression to a count, which stops at 4,001.
pub fn add_sites(counted: u32, e: &Expression) -> u32
    ensures { (k : Known) → IsMarked k e.now → result ≡ min sites_counted (counted + sites k (shown_expression e.now)) }
{
    counted.saturating_add(marks_of(e).sites).min(SITES_COUNTED)
}

/// Adds the call sites of the values of bindings to a count.
pub fn add_bound_sites(counted: u32, bound: &[Bound]) -> u32
    requires { counted ≤ sites_counted }
    ensures { (k : Known) → BoundMarked k bound.now → result ≡ min sites_counted (counted + sites_bound k (shown_bindings bound.now)) }
{
    let mut total = counted;
    for b in bound {
        total = add_sites(total, &b.value);
    }
    total
}

// Adds the call sites of several expressions to a count.
fn add_all_sites(counted: u32, es: &[Expression]) -> u32
    requires { counted ≤ sites_counted }
    ensures { (k : Known) → AreMarked k es.now → result ≡ min sites_counted (counted + sites_in k (shown_expressions es.now)) }
{
    let mut total = counted;
    for e in es {
        total = add_sites(total, e);
    }
    total
}

fn are_flexible(es: &[Expression]) -> bool
    ensures { (k : Known) → AreMarked k es.now → result ≡ all_flexible (shown_expressions es.now) }
{
    for e in es {
        if !is_flexible(e) {
            return false;
        }
    }
    true
}

/// The marks of an if.
pub fn marks_of_choice(condition: &Expression, first: &Expression, second: &Expression) -> Marks
    ensures { MarksChoice condition.now first.now second.now result }
{
    let flexible = are_both_flexible(first, second);
    let tested = add_sites(0, condition);
    let sites = add_sites(add_sites(tested, first), second);
    Marks { flexible, sites }
}

/// The marks of a let.
pub fn marks_of_binding(bound: &[Bound], body: &Expression) -> Marks
    ensures { MarksBinding bound.now body.now result }
{
    let flexible = is_flexible(body);
    let sites = add_sites(add_bound_sites(0, bound), body);
    Marks { flexible, sites }
}

/// The marks of an operator with its operands.
pub fn marks_of_operation(operator: Primitive, operands: &[Expression]) -> Marks
    ensures { MarksOperation operator operands.now result }
{
    let flexible = has_operands_width(operator) && are_flexible(operands);
    let sites = add_all_sites(0, operands);
    Marks { flexible, sites }
}

/// The marks of a call. `own` is the number of sites that the call itself is: 0 or 1.
pub fn marks_of_call(own: u32, arguments: &[Expression]) -> Marks
    requires { own ≤ 1 }
    ensures { MarksCall own arguments.now result }
{
    let sites = add_all_sites(own, arguments);
    Marks {
        flexible: false,
        sites,
    }
}
