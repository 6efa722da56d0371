//! Rewriting each `case` as a let and ifs, and marking the expressions that are made.

ghost use Rattle.std.specs.Prelude.{◌≡◌, IfOk};
ghost use Rattle.safl_tree.specs.Tree.{trees_of, binds_of};
ghost use Rattle.safl_tree.specs.Shown.{shown_tree, shown_trees, shown_bounds, shown_labelled};
ghost use Rattle.safl_typing.specs.Rewriting.{rewritten, rewritten_all, rewritten_binds};
ghost use Rattle.safl_typing.specs.Plain.{shown_expression, shown_expressions, shown_bindings, RewritesArms};
ghost use Rattle.safl_typing.specs.PlainHeads.{known};
ghost use Rattle.safl_typing.specs.Marks.{IsMarked, AreMarked, BoundMarked};

use crate::expression::{Bound, Expression};
use crate::heads::{Heads, find_callee};
use crate::make::{bind, call, choice, operate, scrutinise, test};
use crate::sites::sites_of_callee;
use safl_tree::{Arm, Bind, Expr, Name, Opened, top};
use safl_word::NoMemory;
use std::alloc::Global;

/// The expression in which each `case` is rewritten. It belongs to a body of group `unit`. The recursion is as deep as
/// the expression.
#[cycle(rewriting)]
pub fn rewrite(alloc: Global, heads: &Heads, unit: u32, e: &Expr) -> Result<Expression, NoMemory>
    ensures rewritten { IfOk result (λ x. shown_expression x ≡ rewritten (shown_tree e.now)) }
    ensures marked { IfOk result (IsMarked (known heads.now unit)) }
{
    let place = e.place;
    match top(e) {
        Opened::Num(n) => Ok(Expression::Number(place, n)),
        Opened::Sized(width, n) => Ok(Expression::Sized(place, width, n)),
        Opened::Var(name) => Ok(Expression::Variable(place, copied(alloc, name)?)),
        Opened::If(condition, first, second) => {
            let condition = rewrite(alloc, heads, unit, condition)?;
            let first = rewrite(alloc, heads, unit, first)?;
            let second = rewrite(alloc, heads, unit, second)?;
            choice(alloc, place, condition, first, second)
        }
        Opened::Let(binds, body) => {
            let bound = rewrite_binds(alloc, heads, unit, binds)?;
            let body = rewrite(alloc, heads, unit, body)?;
            bind(alloc, place, bound, body)
        }
        Opened::Case(scrutinee, arms, default) => {
            let value = rewrite(alloc, heads, unit, scrutinee)?;
            let default = rewrite(alloc, heads, unit, default)?;
            let body = rewrite_arms(alloc, heads, unit, place, arms, default)?;
            scrutinise(alloc, place, value, body)
        }
        Opened::Op(operator, operands) => {
            let operands = rewrite_all(alloc, heads, unit, operands)?;
            Ok(operate(place, operator, operands))
        }
        Opened::Call(name, arguments) => {
            let arguments = rewrite_all(alloc, heads, unit, arguments)?;
            let own = sites_of_callee(find_callee(heads, unit, name));
            Ok(call(place, own, copied(alloc, name)?, arguments))
        }
    }
}

// Rewrites several expressions, such as operands or arguments.
#[cycle(rewriting)]
fn rewrite_all(
    alloc: Global,
    heads: &Heads,
    unit: u32,
    es: &[Expr],
) -> Result<Vec<Expression>, NoMemory>
    ensures rewritten { IfOk result (λ xs. shown_expressions xs.items ≡ rewritten_all (trees_of (shown_trees es.now))) }
    ensures marked { IfOk result (λ xs. AreMarked (known heads.now unit) xs.items) }
{
    let mut all = Vec::new(alloc);
    for e in es {
        let next = rewrite(alloc, heads, unit, e)?;
        all.push(next)?;
    }
    Ok(all)
}

// Rewrites the values of bindings.
#[cycle(rewriting)]
fn rewrite_binds(
    alloc: Global,
    heads: &Heads,
    unit: u32,
    binds: &[Bind],
) -> Result<Vec<Bound>, NoMemory>
    ensures rewritten { IfOk result (λ bs. shown_bindings bs.items ≡ rewritten_binds (binds_of (shown_bounds binds.now))) }
    ensures marked { IfOk result (λ bs. BoundMarked (known heads.now unit) bs.items) }
{
    let mut all = Vec::new(alloc);
    for b in binds {
        let name = copied(alloc, &b.name)?;
        let value = rewrite(alloc, heads, unit, &b.value)?;
        all.push(Bound {
            place: b.place,
            name,
            width: b.width,
            value,
        })?;
    }
    Ok(all)
}

// The arms of a `case` as ifs, the last one with the default as its other branch.
#[cycle(rewriting)]
fn rewrite_arms(
    alloc: Global,
    heads: &Heads,
    unit: u32,
    place: u32,
    arms: &[Arm],
    default: Expression,
) -> Result<Expression, NoMemory>
    ensures rewritten { IfOk result (λ x. RewritesArms place (shown_labelled arms.now) default x) }
    ensures marked { IfOk result (λ x. IsMarked (known heads.now unit) default → IsMarked (known heads.now unit) x) }
{
    let mut body = default;
    let count = arms.len();
    for done in 0..count {
        let arm = &arms[count - 1 - done];
        let label = rewrite(alloc, heads, unit, &arm.label)?;
        let condition = test(alloc, arm.label.place, label)?;
        let value = rewrite(alloc, heads, unit, &arm.value)?;
        body = choice(alloc, place, condition, value, body)?;
    }
    Ok(body)
}

fn copied(alloc: Global, name: &Name) -> Result<Name, NoMemory>
    ensures { IfOk result (λ copy. copy ≡ name.now) }
{
    Name::new(alloc, name.bytes())
}
