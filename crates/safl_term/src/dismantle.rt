//! Freeing a term without recursion and without memory.
//!
//! The way back up is kept in the term itself: the first part of the term above is replaced by the term above that, and
//! so on up to a leaf. `safl_tree` frees expressions in the same way.

ghost use Rattle.std.specs.Prelude.{◌≡◌, ◌+◌, ◌*◌, ◌<◌, ◌≤◌, IfSome, vec_len};
ghost use Rattle.std.specs.List.{sum_by};
ghost use Rattle.safl_term.specs.Weights.{code_weight, work_at};
ghost use Rattle.safl_word.specs.Naturals.{work};

use crate::term::Term;
use safl_word::Primitive;
use std::mem::replace;

// The term that is freed next, and the one above it.
pub(crate) struct At {
    pub here: Term,
    pub above: Term,
}

/// Frees a term of any depth.
pub(crate) fn dismantle(t: Term) {
    let mut at = At {
        here: t,
        above: leaf(),
    };
    loop {
        match step(at) {
            Some(next) => at = next,
            None => return,
        }
    }
}

// Frees a leaf, or goes down to the first part of a term.
fn step(at: At) -> Option<At>
    ensures { IfSome result (λ next. work_at next < work_at at) }
{
    let At { here, above } = at;
    here.enter(above)
}

fn leaf() -> Term
    ensures { code_weight result ≡ 1 }
{
    Term::Var(0)
}

pub(crate) fn enter_if(
    mut condition: Box<Term>,
    first: Box<Term>,
    second: Box<Term>,
    above: Term,
) -> At
    ensures { work_at result < work (1 + (code_weight condition.value + (2 * code_weight first.value + code_weight second.value))) (code_weight above) }
{
    let here = Box::replace(&mut condition, above);
    At {
        here,
        above: Term::If(condition, first, second),
    }
}

pub(crate) fn enter_let(bound: Vec<Term>, mut body: Box<Term>, above: Term) -> At
    ensures { work_at result < work (1 + (sum_by code_weight bound.items + code_weight body.value)) (code_weight above) }
{
    let here = Box::replace(&mut body, above);
    At {
        here,
        above: Term::Let(0, bound, body),
    }
}

// Goes down to the first of several operands or arguments. If there are none, the way goes up.
pub(crate) fn enter_parts(mut parts: Vec<Term>, above: Term) -> Option<At>
    ensures { IfSome result (λ next. work_at next < work (2 + sum_by code_weight parts.items) (code_weight above)) }
{
    if parts.is_empty() {
        parts.destroy_empty();
        return above.leave();
    }
    let here = replace_first(&mut parts, above);
    Some(At {
        here,
        above: Term::Op(Primitive::Not, parts),
    })
}

// Takes the first of several terms, and puts another in its place.
fn replace_first(parts: &mut Vec<Term>, t: Term) -> Term
    requires { 0 < vec_len parts.old }
    ensures sum { code_weight result + sum_by code_weight parts.new.items ≡ sum_by code_weight parts.old.items + code_weight t }
    ensures least { code_weight result ≤ sum_by code_weight parts.old.items }
{
    replace(&mut parts[0], t)
}

// Goes on to the first branch of an if, or to the second one if the first is a leaf.
pub(crate) fn leave_if(link: Box<Term>, mut first: Box<Term>, second: Box<Term>) -> At
    ensures { code_weight result.here + code_weight result.above ≤ 1 + (code_weight link.value + (2 * code_weight first.value + code_weight second.value)) }
{
    match Box::replace(&mut first, leaf()).discard_leaf() {
        Some(here) => At {
            here,
            above: Term::If(link, first, second),
        },
        None => match Box::into_inner(first).discard_leaf() {
            Some(_) => unreachable!(),
            None => At {
                here: Box::into_inner(second),
                above: Box::into_inner(link),
            },
        },
    }
}

pub(crate) fn leave_let(mut bound: Vec<Term>, link: Box<Term>) -> At
    ensures { code_weight result.here + code_weight result.above ≤ 1 + (sum_by code_weight bound.items + code_weight link.value) }
{
    match bound.pop() {
        Some(here) => At {
            here,
            above: Term::Let(0, bound, link),
        },
        None => {
            bound.destroy_empty();
            At {
                here: leaf(),
                above: Box::into_inner(link),
            }
        }
    }
}

// Goes on to the last operand or argument. The first one is the way up.
pub(crate) fn leave_parts(mut parts: Vec<Term>) -> Option<At>
    ensures { IfSome result (λ next. code_weight next.here + code_weight next.above ≤ 2 + sum_by code_weight parts.items) }
{
    match parts.pop() {
        Some(part) => {
            if parts.is_empty() {
                parts.destroy_empty();
                Some(At {
                    here: leaf(),
                    above: part,
                })
            } else {
                Some(At {
                    here: part,
                    above: Term::Op(Primitive::Not, parts),
                })
            }
        }
        None => {
            parts.destroy_empty();
            None
        }
    }
}
