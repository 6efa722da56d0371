//! Sites in reach of a term before a parallel one.

ghost use Rattle.std.specs.Prelude.{ℕ, ◌<◌, length};
ghost use Rattle.safl_term.specs.Tree.{shown_term, shown_terms};
ghost use Rattle.safl_sites.specs.Parallel.{Marked, MarkedIn};
ghost use Rattle.safl_sites.specs.Reach.{MayReach, MayReachIn};
ghost use Rattle.safl_sites.specs.SiteSets.{Has, HasAt, Adds};

use crate::reach::reach;
use crate::site_set::SiteSet;
use safl_term::{Checked, Node, Term, top};

/// Adds to the set of each site in a term the sites in reach of the parallel terms before it: those within the term,
/// and those around it, which `before` has.
#[cycle(mark)]
pub fn mark(c: &Checked, units: &[SiteSet], t: &Term, before: &SiteSet, sets: &mut [SiteSet])
    requires may { (slots : ℕ) × MayReach c.now.program units.now slots (shown_term t.now) }
    requires room { c.now.program.sites < length sets.old }
    ensures { (b k : ℕ) → Adds (HasAt sets.old b k) (HasAt sets.new b k) (Marked c.now.program (Has before.now k) k b (shown_term t.now)) }
{
    match top(t) {
        Node::Const(_) => {}
        Node::Var(_) => {}
        Node::If(condition, a, b) => {
            mark(c, units, condition, before, sets);
            mark(c, units, a, before, sets);
            mark(c, units, b, before, sets);
        }
        Node::Let(_, bound, body) => {
            mark_in(c, units, bound, before, sets);
            mark(c, units, body, before, sets);
        }
        Node::Op(_, ts) => mark_in(c, units, ts, before, sets),
        Node::Call(_, k, ts) => {
            sets[k as usize].union(before);
            mark_in(c, units, ts, before, sets);
        }
        Node::Loop(_, ts) => mark_in(c, units, ts, before, sets),
    }
}

#[cycle(mark)]
fn mark_in(c: &Checked, units: &[SiteSet], ts: &[Term], before: &SiteSet, sets: &mut [SiteSet])
    requires may { (slots : ℕ) × MayReachIn c.now.program units.now slots (shown_terms ts.now) }
    requires room { c.now.program.sites < length sets.old }
    ensures { (b k : ℕ) → Adds (HasAt sets.old b k) (HasAt sets.new b k) (MarkedIn c.now.program (Has before.now k) k b (shown_terms ts.now)) }
{
    if let Some((first, rest)) = ts.split_first() {
        mark(c, units, first, before, sets);
        let mut later = *before;
        reach(c, units, first, &mut later);
        mark_in(c, units, rest, &later, sets);
    }
}
