//! Which terms contain calls.

ghost use Rattle.std.specs.Prelude.{◌≡◌};
ghost use Rattle.safl_term.specs.Tree.{shown_term, shown_terms};
ghost use Rattle.safl_lower.specs.Typing.{holds_calls, hold_calls};

use safl_term::{Node, Term, top};

/// Whether the term contains a call or a tail call.
#[cycle(holding)]
pub fn holds_calls(t: &Term) -> bool
    ensures { result ≡ holds_calls (shown_term t.now) }
{
    match top(t) {
        Node::Const(_) => false,
        Node::Var(_) => false,
        Node::If(c, a, b) => holds_calls(c) || holds_calls(a) || holds_calls(b),
        Node::Let(_, ts, b) => hold_calls(ts) || holds_calls(b),
        Node::Op(_, ts) => hold_calls(ts),
        Node::Call(_, _, _) => true,
        Node::Loop(_, _) => true,
    }
}

// Whether one of the terms contains a call or a tail call.
#[cycle(holding)]
fn hold_calls(ts: &[Term]) -> bool
    ensures { result ≡ hold_calls (shown_terms ts.now) }
{
    for t in ts {
        if holds_calls(t) {
            return true;
        }
    }
    false
}
