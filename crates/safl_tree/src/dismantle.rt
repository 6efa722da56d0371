//! Freeing an expression without recursion and without memory.
//!
//! The way back up is kept in the expression itself: the first part of the expression above is replaced by the
//! expression above that, and so on up to a leaf. `safl_term` frees terms in the same way.

ghost use Rattle.std.specs.Prelude.{◌≡◌, ◌+◌, ◌<◌, ◌≤◌, IfSome, vec_len, vec_capacity};
ghost use Rattle.std.specs.List.{sum_by};
ghost use Rattle.safl_tree.specs.Sizes.{bind_size, arm_size, work_at, expr_size};
ghost use Rattle.safl_word.specs.Naturals.{work};

use crate::tree::{Arm, Bind, Expr, Node};
use safl_word::Primitive;
use std::mem::replace;

// The expression that is freed next, and the one above it.
struct At {
    here: Expr,
    above: Expr,
}

/// Frees an expression of any depth.
pub(crate) fn dismantle(e: Expr) {
    let mut at = At {
        here: e,
        above: leaf(),
    };
    loop {
        match step(at) {
            Some(next) => at = next,
            None => return,
        }
    }
}

// Frees a leaf, or goes down to the first part of a node.
fn step(at: At) -> Option<At>
    ensures { IfSome result (λ next. work_at next < work_at at) }
{
    let At { here, above } = at;
    match here.into_node() {
        Node::Num(_) => leave(above),
        Node::Sized(_, _) => leave(above),
        Node::Var(_) => leave(above),
        Node::If(condition, first, second) => Some(enter_if(condition, first, second, above)),
        Node::Let(binds, body) => Some(enter_let(binds, body, above)),
        Node::Case(scrutinee, arms, default) => Some(enter_case(scrutinee, arms, default, above)),
        Node::Op(_, operands) => enter_parts(operands, above),
        Node::Call(_, arguments) => enter_parts(arguments, above),
    }
}

fn leaf() -> Expr
    ensures { expr_size result ≡ 1 }
{
    unplaced(Node::Num(0))
}

fn unplaced(node: Node) -> Expr
    ensures { result ≡ record { place = 0; node = node } }
{
    Expr { place: 0, node }
}

fn enter_if(mut condition: Box<Expr>, first: Box<Expr>, second: Box<Expr>, above: Expr) -> At
    ensures { work_at result < work (1 + (expr_size condition.value + (expr_size first.value + expr_size second.value))) (expr_size above) }
{
    let here = Box::replace(&mut condition, above);
    At {
        here,
        above: unplaced(Node::If(condition, first, second)),
    }
}

fn enter_let(binds: Vec<Bind>, mut body: Box<Expr>, above: Expr) -> At
    ensures { work_at result < work (1 + (sum_by bind_size binds.items + expr_size body.value)) (expr_size above) }
{
    let here = Box::replace(&mut body, above);
    At {
        here,
        above: unplaced(Node::Let(binds, body)),
    }
}

fn enter_case(mut scrutinee: Box<Expr>, arms: Vec<Arm>, default: Box<Expr>, above: Expr) -> At
    ensures { work_at result < work (1 + (expr_size scrutinee.value + (sum_by arm_size arms.items + expr_size default.value))) (expr_size above) }
{
    let here = Box::replace(&mut scrutinee, above);
    At {
        here,
        above: unplaced(Node::Case(scrutinee, arms, default)),
    }
}

// Goes down to the first of several operands or arguments. If there are none, the way goes up.
fn enter_parts(mut es: Vec<Expr>, above: Expr) -> Option<At>
    ensures { IfSome result (λ next. work_at next < work (2 + sum_by expr_size es.items) (expr_size above)) }
{
    if es.is_empty() {
        es.destroy_empty();
        return leave(above);
    }
    let here = replace_first(&mut es, above);
    Some(At {
        here,
        above: unplaced(Node::Op(Primitive::Not, es)),
    })
}

// Takes the first of several expressions, and puts another in its place.
fn replace_first(es: &mut Vec<Expr>, e: Expr) -> Expr
    requires { 0 < vec_len es.old }
    ensures sum { expr_size result + sum_by expr_size es.new.items ≡ sum_by expr_size es.old.items + expr_size e }
    ensures least { expr_size result ≤ sum_by expr_size es.old.items }
{
    replace(&mut es[0], e)
}

// Goes on to the next part of the expression above, if that is no leaf.
fn leave(above: Expr) -> Option<At>
    ensures { IfSome result (λ next. expr_size next.here + expr_size next.above ≤ expr_size above) }
{
    match above.into_node() {
        Node::Num(_) => None,
        Node::Sized(_, _) => None,
        Node::Var(_) => None,
        Node::If(link, first, second) => {
            let no_arms = Vec::new(*Box::allocator(&link));
            Some(At {
                here: Box::into_inner(first),
                above: unplaced(Node::Case(link, no_arms, second)),
            })
        }
        Node::Let(binds, link) => Some(leave_let(binds, link)),
        Node::Case(link, arms, default) => Some(leave_case(link, arms, default)),
        Node::Op(_, es) => leave_parts(es),
        Node::Call(_, es) => leave_parts(es),
    }
}

fn leave_let(mut binds: Vec<Bind>, link: Box<Expr>) -> At
    ensures { expr_size result.here + expr_size result.above ≤ 1 + (sum_by bind_size binds.items + expr_size link.value) }
{
    match binds.pop() {
        Some(bind) => At {
            here: bind.value,
            above: unplaced(Node::Let(binds, link)),
        },
        None => {
            binds.destroy_empty();
            At {
                here: leaf(),
                above: Box::into_inner(link),
            }
        }
    }
}

fn leave_case(link: Box<Expr>, mut arms: Vec<Arm>, default: Box<Expr>) -> At
    ensures { expr_size result.here + expr_size result.above ≤ 1 + (expr_size link.value + (sum_by arm_size arms.items + expr_size default.value)) }
{
    match arms.pop() {
        Some(arm) => {
            let here = next_of(&mut arms, arm);
            At {
                here,
                above: unplaced(Node::Case(link, arms, default)),
            }
        }
        None => {
            arms.destroy_empty();
            At {
                here: Box::into_inner(default),
                above: Box::into_inner(link),
            }
        }
    }
}

// Goes on to the label of an arm, or to its value if the label is a leaf.
fn next_of(arms: &mut Vec<Arm>, arm: Arm) -> Expr
    requires { vec_len arms.old < vec_capacity arms.old }
    ensures { expr_size result + sum_by arm_size arms.new.items ≤ arm_size arm + sum_by arm_size arms.old.items }
{
    let Arm { label, value } = arm;
    match discard_leaf(label) {
        None => value,
        Some(label) => {
            let rest = Arm {
                label: leaf(),
                value,
            };
            match arms.push(rest) {
                Ok(()) => label,
                Err(_) => unreachable!(),
            }
        }
    }
}

// Frees the expression if it is a leaf, and hands it back otherwise.
fn discard_leaf(e: Expr) -> Option<Expr>
    ensures { IfSome result (λ x. (expr_size x ≡ expr_size e) × (2 ≤ expr_size x)) }
{
    match e.into_node() {
        Node::Num(_) => None,
        Node::Sized(_, _) => None,
        Node::Var(_) => None,
        node => Some(unplaced(node)),
    }
}

// Goes on to the last operand or argument. The first one is the way up.
fn leave_parts(mut es: Vec<Expr>) -> Option<At>
    ensures { IfSome result (λ next. expr_size next.here + expr_size next.above ≤ 2 + sum_by expr_size es.items) }
{
    match es.pop() {
        Some(e) => {
            if es.is_empty() {
                es.destroy_empty();
                Some(At {
                    here: leaf(),
                    above: e,
                })
            } else {
                Some(At {
                    here: e,
                    above: unplaced(Node::Op(Primitive::Not, es)),
                })
            }
        }
        None => {
            es.destroy_empty();
            None
        }
    }
}
