//! Terms without calls, and terms that read a secret.

ghost use Rattle.std.specs.Prelude.{◌≡◌, true};
ghost use Rattle.safl_calls.specs.Labels.{IsPlainTerm, ArePlain};
ghost use Rattle.safl_term.specs.Tree.{shown_term, shown_terms};

use safl_term::{Node, Term, top};

/// Whether the term has no call and no tail call.
#[cycle(plain)]
pub fn is_plain(t: &Term) -> bool
    ensures { result ≡ true → IsPlainTerm (shown_term t.now) }
{
    match top(t) {
        Node::Const(_) => true,
        Node::Var(_) => true,
        Node::If(condition, first, second) => {
            is_plain(condition) && (is_plain(first) && is_plain(second))
        }
        Node::Let(_, bound, body) => are_plain(bound) && is_plain(body),
        Node::Op(_, parts) => are_plain(parts),
        Node::Call(_, _, _) => false,
        Node::Loop(_, _) => false,
    }
}

#[cycle(plain)]
fn are_plain(ts: &[Term]) -> bool
    ensures { result ≡ true → ArePlain (shown_terms ts.now) }
{
    if let Some((first, rest)) = ts.split_first() {
        return is_plain(first) && are_plain(rest);
    }
    true
}

/// Whether the term reads a slot that is not public. Slots of lets inside the term are left out: what is bound to them is
/// looked at.
#[cycle(reading)]
pub fn reads_secret(slots: &[bool], t: &Term) -> bool {
    match top(t) {
        Node::Const(_) => false,
        Node::Var(i) => is_secret(slots, i),
        Node::If(condition, first, second) => {
            reads_secret(slots, condition)
                || (reads_secret(slots, first) || reads_secret(slots, second))
        }
        Node::Let(_, bound, body) => read_secret(slots, bound) || reads_secret(slots, body),
        Node::Op(_, parts) => read_secret(slots, parts),
        Node::Call(_, _, args) => read_secret(slots, args),
        Node::Loop(_, args) => read_secret(slots, args),
    }
}

#[cycle(reading)]
fn read_secret(slots: &[bool], ts: &[Term]) -> bool {
    if let Some((first, rest)) = ts.split_first() {
        return reads_secret(slots, first) || read_secret(slots, rest);
    }
    false
}

fn is_secret(slots: &[bool], i: u32) -> bool {
    match slots.get(i as usize) {
        Some(label) => !*label,
        None => false,
    }
}
