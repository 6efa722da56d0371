//! The circuits of terms.

ghost use Rattle.std.specs.Prelude.{◌≡◌, ◌<◌, IfOk, OnOk};
ghost use Rattle.safl_term.specs.Tree.{shown_term, shown_terms};
ghost use Rattle.safl_net.specs.Names.{IsTidy};
ghost use Rattle.safl_net.specs.Growth.{Grows};
ghost use Rattle.safl_lower.specs.Lowering.{Lowerable, LowerableAll, Lowers, LowersAll};

use crate::gates::constant;
use crate::joins::{ask, body_path, branch_paths, choose, go_on};
use crate::lowered::{Lowered, LoweredAll, Out, Readiness, SiteTable};
use crate::primitives::apply;
use crate::ready::both_ready;
use safl_net::{Net, Sig};
use safl_term::{Node, Term, top};
use safl_word::NoMemory;
use std::alloc::Global;

/// The circuit of a term. `slots` are the parameters and the bindings around it. `path` is a bit that is 1 only if
/// control has come to the term.
#[cycle(terms)]
pub fn lower_term(
    alloc: Global,
    net: &mut Net,
    out: &mut Out,
    slots: &mut Vec<Sig>,
    sites: &SiteTable,
    path: Sig,
    t: &Term,
) -> Result<Lowered, NoMemory>
    requires tidy { IsTidy net.old }
    requires able { Lowerable net.old sites.now slots.old.items path (shown_term t.now) }
    ensures tidy { IsTidy net.new }
    ensures kept { Grows net.old net.new }
    ensures slots { OnOk result (slots.new.items ≡ slots.old.items) }
    ensures done { IfOk result (λ r. Lowers sites.now slots.old.items path net.old net.new out.old out.new r (shown_term t.now)) }
{
    match top(t) {
        Node::Const(w) => {
            let value = constant(net, w)?;
            Ok(Lowered {
                ready: Readiness::Always,
                value,
            })
        }
        Node::Var(i) => Ok(Lowered {
            ready: Readiness::Always,
            value: slots[i as usize],
        }),
        Node::If(c, a, b) => {
            let test = lower_term(alloc, net, out, slots, sites, path, c)?;
            let paths = branch_paths(net, path, test, a, b)?;
            let yes = lower_term(alloc, net, out, slots, sites, paths.yes, a)?;
            let no = lower_term(alloc, net, out, slots, sites, paths.no, b)?;
            choose(net, test, yes, no)
        }
        Node::Let(_, ts, b) => {
            let bound = lower_all(alloc, net, out, slots, sites, path, ts)?;
            let inner = body_path(net, path, bound.ready, b)?;
            let depth = slots.len();
            slots.extend_from_slice(&bound.values)?;
            let body = lower_term(alloc, net, out, slots, sites, inner, b)?;
            slots.truncate(depth);
            let ready = both_ready(net, bound.ready, body.ready)?;
            Ok(Lowered {
                ready,
                value: body.value,
            })
        }
        Node::Op(p, ts) => {
            let all = lower_all(alloc, net, out, slots, sites, path, ts)?;
            let value = apply(net, p, &all.values)?;
            Ok(Lowered {
                ready: all.ready,
                value,
            })
        }
        Node::Call(_, k, ts) => {
            let all = lower_all(alloc, net, out, slots, sites, path, ts)?;
            ask(net, out, sites, path, k, all)
        }
        Node::Loop(h, ts) => {
            let all = lower_all(alloc, net, out, slots, sites, path, ts)?;
            go_on(net, out, path, h, all)
        }
    }
}

// The circuits of several terms with the same path.
#[cycle(terms)]
fn lower_all(
    alloc: Global,
    net: &mut Net,
    out: &mut Out,
    slots: &mut Vec<Sig>,
    sites: &SiteTable,
    path: Sig,
    ts: &[Term],
) -> Result<LoweredAll, NoMemory>
    requires tidy { IsTidy net.old }
    requires able { LowerableAll net.old sites.now slots.old.items path (shown_terms ts.now) }
    ensures tidy { IsTidy net.new }
    ensures kept { Grows net.old net.new }
    ensures slots { OnOk result (slots.new.items ≡ slots.old.items) }
    ensures done { IfOk result (λ r. LowersAll sites.now slots.old.items path net.old net.new out.old out.new r (shown_terms ts.now)) }
{
    let mut values = Vec::new(alloc);
    let mut ready = Readiness::Always;
    for t in ts {
        let one = lower_term(alloc, net, out, slots, sites, path, t)?;
        ready = both_ready(net, ready, one.ready)?;
        values.push(one.value)?;
    }
    Ok(LoweredAll { ready, values })
}
