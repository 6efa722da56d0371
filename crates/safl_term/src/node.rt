//! The node at the top of a term, with its parts.

ghost use Rattle.std.specs.Prelude.{◌≡◌};
ghost use Rattle.safl_term.specs.Nodes.{shown_node};
ghost use Rattle.safl_term.specs.Tree.{shown_term};

use crate::term::Term;
use safl_word::{Primitive, Word};

/// The node at the top of a term. Its fields are those of `Term`, and it borrows the parts.
#[derive(Clone, Copy)]
pub enum Node<'a> {
    Const(Word),
    Var(u32),
    If(&'a Term, &'a Term, &'a Term),
    Let(u32, &'a [Term], &'a Term),
    Op(Primitive, &'a [Term]),
    Call(u32, u32, &'a [Term]),
    Loop(u32, &'a [Term]),
}

/// The node at the top of a term.
pub fn top(t: &Term) -> Node<'_>
    ensures { shown_term t.now ≡ shown_node result }
{
    match t {
        Term::Const(word) => Node::Const(*word),
        Term::Var(slot) => Node::Var(*slot),
        Term::If(condition, a, b) => Node::If(condition, a, b),
        Term::Let(low, bound, body) => Node::Let(*low, bound, body),
        Term::Op(primitive, ts) => Node::Op(*primitive, ts),
        Term::Call(callee, site, ts) => Node::Call(*callee, *site, ts),
        Term::Loop(member, ts) => Node::Loop(*member, ts),
    }
}
