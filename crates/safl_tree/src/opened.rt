//! What stands at the top of an expression, with its parts.

ghost use Rattle.std.specs.Prelude.{◌≡◌};
ghost use Rattle.safl_tree.specs.Opened.{shown_opened, AreBelow};
ghost use Rattle.safl_tree.specs.declared.tree.Expr.{size-Expr};
ghost use Rattle.safl_tree.specs.Shown.{shown_tree};

use crate::name::Name;
use crate::tree::{Arm, Bind, Expr, Node};
use safl_word::{Primitive, Raw};

/// What stands at the top of an expression. Its fields are those of `Node`, and it borrows the parts.
#[derive(Clone, Copy)]
pub enum Opened<'a> {
    Num(Raw),
    Sized(u8, Raw),
    Var(&'a Name),
    If(&'a Expr, &'a Expr, &'a Expr),
    Let(&'a [Bind], &'a Expr),
    Case(&'a Expr, &'a [Arm], &'a Expr),
    Op(Primitive, &'a [Expr]),
    Call(&'a Name, &'a [Expr]),
}

/// What stands at the top of an expression.
pub fn top(e: &Expr) -> Opened<'_>
    ensures shown { shown_tree e.now ≡ shown_opened result e.now.place }
    ensures below { AreBelow (size-Expr e.now) result }
{
    match &e.node {
        Node::Num(value) => Opened::Num(*value),
        Node::Sized(width, value) => Opened::Sized(*width, *value),
        Node::Var(name) => Opened::Var(name),
        Node::If(condition, first, second) => Opened::If(condition, first, second),
        Node::Let(binds, body) => Opened::Let(binds, body),
        Node::Case(scrutinee, arms, default) => Opened::Case(scrutinee, arms, default),
        Node::Op(operator, operands) => Opened::Op(*operator, operands),
        Node::Call(name, arguments) => Opened::Call(name, arguments),
    }
}
