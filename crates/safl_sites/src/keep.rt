//! Sites whose words decide a condition, or are held while the body of a let runs.

ghost use Rattle.std.specs.Prelude.{◌≡◌, ℕ, length, OnOk};
ghost use Rattle.safl_term.specs.Tree.{shown_term, shown_terms};
ghost use Rattle.safl_sites.specs.Kept.{InBody};
ghost use Rattle.safl_sites.specs.Keeping.{MayKeep, MayKeepIn, Walks, WalksIn, Binds, HoldsHere};
ghost use Rattle.safl_sites.specs.Reach.{MayReach};
ghost use Rattle.safl_sites.specs.SiteSets.{Gains};

use crate::reach::{reach, reach_in};
use crate::site_set::SiteSet;
use crate::touched::touch;
use safl_term::{Checked, Node, Term, top};
use std::alloc::AllocError;

/// The sites whose words decide a condition, and those that are held for another site of their unit.
#[derive(Drop)]
pub struct Keeping {
    pub decides: SiteSet,
    pub held: SiteSet,
}

/// Walks down a term. `slots` has for each slot the sites whose words it may be. The sites whose words the term may be
/// join `feeds`, and those that have to be kept join `keeps`. `units` has the sites in reach of each unit, and `peers`
/// the sites of each unit.
#[cycle(keep)]
pub fn walk(
    c: &Checked,
    units: &[SiteSet],
    peers: &[SiteSet],
    slots: &mut Vec<SiteSet>,
    t: &Term,
    feeds: &mut SiteSet,
    keeps: &mut Keeping,
) -> Result<(), AllocError>
    requires { MayKeep c.now.program units.now peers.now (length slots.old.items) (shown_term t.now) }
    ensures same { OnOk result (slots.new.items ≡ slots.old.items) }
    ensures done { OnOk result (Walks c.now.program slots.old.items feeds.old feeds.new keeps.old keeps.new (shown_term t.now)) }
{
    match top(t) {
        Node::Const(_) => Ok(()),
        Node::Var(slot) => {
            feeds.union(&slots[slot as usize]);
            Ok(())
        }
        Node::If(condition, a, b) => {
            let mut deciding = SiteSet::new();
            walk(c, units, peers, slots, condition, &mut deciding, keeps)?;
            keeps.decides.union(&deciding);
            feeds.union(&deciding);
            walk(c, units, peers, slots, a, feeds, keeps)?;
            walk(c, units, peers, slots, b, feeds, keeps)?;
            Ok(())
        }
        Node::Let(_, bound, body) => {
            let low = slots.len();
            bind_all(c, units, peers, slots, bound, keeps)?;
            hold(c, units, peers, slots, low, body, &mut keeps.held);
            walk(c, units, peers, slots, body, feeds, keeps)?;
            slots.truncate(low);
            Ok(())
        }
        Node::Op(_, ts) => {
            walk_all(c, units, peers, slots, ts, feeds, keeps)?;
            Ok(())
        }
        Node::Call(_, k, ts) => {
            let mut passed = SiteSet::new();
            walk_all(c, units, peers, slots, ts, &mut passed, keeps)?;
            feeds.insert(k);
            Ok(())
        }
        Node::Loop(_, ts) => {
            let mut passed = SiteSet::new();
            walk_all(c, units, peers, slots, ts, &mut passed, keeps)?;
            Ok(())
        }
    }
}

#[cycle(keep)]
fn walk_all(
    c: &Checked,
    units: &[SiteSet],
    peers: &[SiteSet],
    slots: &mut Vec<SiteSet>,
    ts: &[Term],
    feeds: &mut SiteSet,
    keeps: &mut Keeping,
) -> Result<(), AllocError>
    requires { MayKeepIn c.now.program units.now peers.now (length slots.old.items) (shown_terms ts.now) }
    ensures same { OnOk result (slots.new.items ≡ slots.old.items) }
    ensures done { OnOk result (WalksIn c.now.program slots.old.items feeds.old feeds.new keeps.old keeps.new (shown_terms ts.now)) }
{
    let Some((first, rest)) = ts.split_first() else {
        return Ok(());
    };
    walk(c, units, peers, slots, first, feeds, keeps)?;
    walk_all(c, units, peers, slots, rest, feeds, keeps)?;
    Ok(())
}

// Adds a slot for each binding, with the sites whose words the binding may be.
#[cycle(keep)]
fn bind_all(
    c: &Checked,
    units: &[SiteSet],
    peers: &[SiteSet],
    slots: &mut Vec<SiteSet>,
    ts: &[Term],
    keeps: &mut Keeping,
) -> Result<(), AllocError>
    requires { MayKeepIn c.now.program units.now peers.now (length slots.old.items) (shown_terms ts.now) }
    ensures { OnOk result (Binds c.now.program slots.old.items slots.new.items keeps.old keeps.new (shown_terms ts.now)) }
{
    let Some((first, rest)) = ts.split_first() else {
        return Ok(());
    };
    let mut set = SiteSet::new();
    walk(c, units, peers, slots, first, &mut set, keeps)?;
    let at = slots.len();
    bind_all(c, units, peers, slots, rest, keeps)?;
    slots.insert(at, set)?;
    Ok(())
}

// Adds to `held` the sites of the slots from `low` on that the body of a let uses, if the body has another site of
// their unit in reach.
fn hold(
    c: &Checked,
    units: &[SiteSet],
    peers: &[SiteSet],
    slots: &[SiteSet],
    low: usize,
    body: &Term,
    held: &mut SiteSet,
)
    requires { (n : ℕ) × MayKeep c.now.program units.now peers.now n (shown_term body.now) }
    ensures { HoldsHere c.now.program slots.now low (shown_term body.now) held.old held.new }
{
    let mut used = SiteSet::new();
    touch(slots, low, body, &mut used);
    let mut within = SiteSet::new();
    reach_body(c, units, body, &mut within);
    let sites = c.sites();
    for done in 0..sites {
        let k = done + 1;
        if used.contains(k) && within.meets(&peers[c.unit_for(k) as usize], k) {
            held.insert(k);
        }
    }
}

// Adds to a set the sites in reach of the body of a let, or of its arguments if the body is a call.
fn reach_body(c: &Checked, units: &[SiteSet], body: &Term, set: &mut SiteSet)
    requires { (n : ℕ) × MayReach c.now.program units.now n (shown_term body.now) }
    ensures { Gains set.old set.new (λ k. InBody c.now.program k (shown_term body.now)) }
{
    match top(body) {
        Node::Call(_, _, ts) => reach_in(c, units, ts, set),
        Node::Const(_) => {}
        Node::Var(_) => {}
        Node::If(_, _, _) => reach(c, units, body, set),
        Node::Let(_, _, _) => reach(c, units, body, set),
        Node::Op(_, _) => reach(c, units, body, set),
        Node::Loop(_, _) => reach(c, units, body, set),
    }
}
