//! Sites in reach of a term.

ghost use Rattle.std.specs.Prelude.{ℕ};
ghost use Rattle.safl_term.specs.Tree.{shown_term, shown_terms};
ghost use Rattle.safl_sites.specs.Conflicts.{Reaches, ReachesIn};
ghost use Rattle.safl_sites.specs.Reach.{MayReach, MayReachIn};
ghost use Rattle.safl_sites.specs.SiteSets.{Gains};

use crate::site_set::SiteSet;
use safl_term::{Checked, Node, Term, top};

/// Adds the sites in reach of a term to a set. `units` has the sites in reach of the bodies of each unit.
#[cycle(reach)]
pub fn reach(c: &Checked, units: &[SiteSet], t: &Term, set: &mut SiteSet)
    requires { (slots : ℕ) × MayReach c.now.program units.now slots (shown_term t.now) }
    ensures { Gains set.old set.new (λ k. Reaches c.now.program k (shown_term t.now)) }
{
    match top(t) {
        Node::Const(_) => {}
        Node::Var(_) => {}
        Node::If(condition, a, b) => {
            reach(c, units, condition, set);
            reach(c, units, a, set);
            reach(c, units, b, set);
        }
        Node::Let(_, bound, body) => {
            reach_in(c, units, bound, set);
            reach(c, units, body, set);
        }
        Node::Op(_, ts) => reach_in(c, units, ts, set),
        Node::Call(f, k, ts) => {
            set.insert(k);
            set.union(&units[c.unit(f) as usize]);
            reach_in(c, units, ts, set);
        }
        Node::Loop(_, ts) => reach_in(c, units, ts, set),
    }
}

#[cycle(reach)]
pub fn reach_in(c: &Checked, units: &[SiteSet], ts: &[Term], set: &mut SiteSet)
    requires { (slots : ℕ) × MayReachIn c.now.program units.now slots (shown_terms ts.now) }
    ensures { Gains set.old set.new (λ k. ReachesIn c.now.program k (shown_terms ts.now)) }
{
    if let Some((first, rest)) = ts.split_first() {
        reach(c, units, first, set);
        reach_in(c, units, rest, set);
    }
}
