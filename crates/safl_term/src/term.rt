//! Terms, of which the bodies of functions are made.

use crate::dismantle::{
    At, dismantle, enter_if, enter_let, enter_parts, leave_if, leave_let, leave_parts,
};
use safl_word::{Primitive, Word};

/// A term of a function's body. Its variables are slots: first the function's parameters, then the bindings around the
/// term.
pub enum Term {
    /// A constant.
    Const(Word),
    /// The word of this slot.
    Var(u32),
    /// A condition of width 1, the branch that is taken if it is 1, and the branch that is taken if it is 0.
    If(Box<Term>, Box<Term>, Box<Term>),
    /// The slot of the first binding, the terms that are bound to this slot and those that follow, and the body.
    Let(u32, Vec<Term>, Box<Term>),
    /// A primitive and its operands.
    Op(Primitive, Vec<Term>),
    /// The number of the called function, the number of the site, and the arguments.
    Call(u32, u32, Vec<Term>),
    /// A tail call of a function of the caller's own group: its number, and the arguments.
    Loop(u32, Vec<Term>),
}

// Written by hand, since a term may be deeper than the stack allows.
impl Drop for Term {
    fn drop(self) {
        dismantle(self);
    }
}

// These are parts of `dismantle`. They are methods because only methods of a type with its own `drop` may take its
// values apart.
impl Term {
    ghost use Rattle.std.specs.Prelude.{◌≡◌, ◌+◌, ◌<◌, ◌≤◌, IfSome};
    ghost use Rattle.safl_term.specs.Weights.{code_weight, work_at};
    ghost use Rattle.safl_word.specs.Naturals.{work};

    pub(crate) fn enter(self, above: Term) -> Option<At>
        ensures { IfSome result (λ next. work_at next < work (code_weight self) (code_weight above)) }
    {
        match self {
            Term::Const(_) => above.leave(),
            Term::Var(_) => above.leave(),
            Term::If(condition, first, second) => Some(enter_if(condition, first, second, above)),
            Term::Let(_, bound, body) => Some(enter_let(bound, body, above)),
            Term::Op(_, parts) => enter_parts(parts, above),
            Term::Call(_, _, parts) => enter_parts(parts, above),
            Term::Loop(_, parts) => enter_parts(parts, above),
        }
    }

    // Goes on to the next part of the term above, if that is no leaf.
    pub(crate) fn leave(self) -> Option<At>
        ensures { IfSome result (λ next. code_weight next.here + code_weight next.above ≤ code_weight self) }
    {
        match self {
            Term::Const(_) => None,
            Term::Var(_) => None,
            Term::If(link, first, second) => Some(leave_if(link, first, second)),
            Term::Let(_, bound, link) => Some(leave_let(bound, link)),
            Term::Op(_, parts) => leave_parts(parts),
            Term::Call(_, _, parts) => leave_parts(parts),
            Term::Loop(_, parts) => leave_parts(parts),
        }
    }

    // Frees the term if it is a leaf, and hands it back otherwise.
    pub(crate) fn discard_leaf(self) -> Option<Term>
        ensures { IfSome result (λ x. (x ≡ self) × (2 ≤ code_weight x)) }
    {
        match self {
            Term::Const(_) => None,
            Term::Var(_) => None,
            other => Some(other),
        }
    }
}
