//! The call sites of all functions.

ghost use Rattle.std.specs.Prelude.{◌≡◌, ◌≤◌, ◌++◌, length, map, IfOk, OnOk};
ghost use Rattle.safl_word.specs.Limits.{functions_max};
ghost use Rattle.safl_term.specs.Tree.{shown_term, shown_terms};
ghost use Rattle.safl_typing.specs.Forms.{all_sites, sites_of, sites_of_all, shown_function};

use safl_term::{Function, Node, Site, Term, top};
use safl_word::NoMemory;
use std::alloc::Global;

/// The call sites of all bodies, in the order of the text.
pub fn sites_of(alloc: Global, functions: &[Function]) -> Result<Vec<Site>, NoMemory>
    requires { length functions.now ≤ functions_max }
    ensures { IfOk result (λ sites. sites.items ≡ all_sites 0 (map shown_function functions.now)) }
{
    let mut sites = Vec::new(alloc);
    for (caller, function) in functions.iter().enumerate() {
        push_sites(&mut sites, caller as u32, &function.body)?;
    }
    Ok(sites)
}

// Appends the call sites of a term in the body of `caller`.
#[cycle(sites)]
fn push_sites(sites: &mut Vec<Site>, caller: u32, term: &Term) -> Result<(), NoMemory>
    ensures { OnOk result (sites.new.items ≡ sites.old.items ++ sites_of caller (shown_term term.now)) }
{
    match top(term) {
        Node::Const(_) => Ok(()),
        Node::Var(_) => Ok(()),
        Node::If(condition, first, second) => {
            push_sites(sites, caller, condition)?;
            push_sites(sites, caller, first)?;
            push_sites(sites, caller, second)
        }
        Node::Let(_, bound, body) => {
            push_all(sites, caller, bound)?;
            push_sites(sites, caller, body)
        }
        Node::Op(_, operands) => push_all(sites, caller, operands),
        Node::Call(callee, _, arguments) => {
            sites.push(Site { caller, callee })?;
            push_all(sites, caller, arguments)
        }
        Node::Loop(_, arguments) => push_all(sites, caller, arguments),
    }
}

// Appends the call sites of several terms in the body of `caller`, in order.
#[cycle(sites)]
fn push_all(sites: &mut Vec<Site>, caller: u32, terms: &[Term]) -> Result<(), NoMemory>
    ensures { OnOk result (sites.new.items ≡ sites.old.items ++ sites_of_all caller (shown_terms terms.now)) }
{
    for term in terms {
        push_sites(sites, caller, term)?;
    }
    Ok(())
}
