//! Sites whose words are in the slots that a term uses.

ghost use Rattle.safl_term.specs.Tree.{shown_term, shown_terms};
ghost use Rattle.safl_sites.specs.SiteSets.{Gains};
ghost use Rattle.safl_sites.specs.Touched.{IsTouched, IsTouchedIn};

use crate::site_set::SiteSet;
use safl_term::{Node, Term, top};

/// Adds to a set the sites of those slots from `low` on that a term uses.
#[cycle(touch)]
pub fn touch(slots: &[SiteSet], low: usize, t: &Term, set: &mut SiteSet)
    ensures { Gains set.old set.new (λ k. IsTouched slots.now low k (shown_term t.now)) }
{
    match top(t) {
        Node::Const(_) => {}
        Node::Var(slot) => {
            if low <= slot as usize && (slot as usize) < slots.len() {
                set.union(&slots[slot as usize]);
            }
        }
        Node::If(condition, a, b) => {
            touch(slots, low, condition, set);
            touch(slots, low, a, set);
            touch(slots, low, b, set);
        }
        Node::Let(_, bound, body) => {
            touch_in(slots, low, bound, set);
            touch(slots, low, body, set);
        }
        Node::Op(_, ts) => touch_in(slots, low, ts, set),
        Node::Call(_, _, ts) => touch_in(slots, low, ts, set),
        Node::Loop(_, ts) => touch_in(slots, low, ts, set),
    }
}

#[cycle(touch)]
fn touch_in(slots: &[SiteSet], low: usize, ts: &[Term], set: &mut SiteSet)
    ensures { Gains set.old set.new (λ k. IsTouchedIn slots.now low k (shown_terms ts.now)) }
{
    if let Some((first, rest)) = ts.split_first() {
        touch(slots, low, first, set);
        touch_in(slots, low, rest, set);
    }
}
