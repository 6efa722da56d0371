//! Counting the call sites and nodes of expressions.

ghost use Rattle.safl_tree.specs.Shown.{shown_tree, shown_trees, shown_bounds, shown_labelled};
ghost use Rattle.safl_typing.specs.Rewriting.{rewritten, nodes};
ghost use Rattle.safl_typing.specs.PlainHeads.{known};
ghost use Rattle.safl_reshape.specs.Changed.{sites_in_tree};
ghost use Rattle.safl_reshape.specs.Counting.{Adds, nodes_list, nodes_bounds, nodes_labelled};
ghost use Rattle.safl_reshape.specs.Lists.{sites_list, sites_bounds, sites_labelled};

use safl_tree::{Arm, Bind, Expr, Opened, top};
use safl_typing::heads::{Heads, find_callee};
use safl_typing::sites::sites_of_callee;

/// Numbers of call sites and of nodes, after each `case` is rewritten. A number stays at the maximum of its type.
#[derive(Clone, Copy)]
pub struct Counts {
    pub sites: u32,
    pub nodes: u32,
}

impl Counts {
    ghost use Rattle.safl_reshape.specs.Counting.{Adds};

    /// The counts with `sites` more call sites and `nodes` more nodes.
    pub fn plus(self, sites: u32, nodes: u32) -> Counts
        ensures { Adds self result sites nodes }
    {
        Counts {
            sites: self.sites.saturating_add(sites),
            nodes: self.nodes.saturating_add(nodes),
        }
    }
}

/// The counts with those of an expression added, which belongs to a body of group `unit`. The recursion is as deep as
/// the expression.
#[cycle(counting)]
pub fn count(heads: &Heads, unit: u32, before: Counts, e: &Expr) -> Counts
    ensures { Adds before result (sites_in_tree (known heads.now unit) (shown_tree e.now)) (nodes (rewritten (shown_tree e.now))) }
{
    let itself = before.plus(0, 1);
    match top(e) {
        Opened::Num(_) | Opened::Sized(..) | Opened::Var(_) => itself,
        Opened::If(condition, first, second) => {
            let upto_condition = count(heads, unit, itself, condition);
            let upto_first = count(heads, unit, upto_condition, first);
            count(heads, unit, upto_first, second)
        }
        Opened::Let(binds, body) => {
            let upto_binds = count_binds(heads, unit, itself, binds);
            count(heads, unit, upto_binds, body)
        }
        Opened::Case(value, arms, other) => {
            let upto_value = count(heads, unit, itself, value);
            let upto_arms = count_arms(heads, unit, upto_value, arms);
            count(heads, unit, upto_arms, other)
        }
        Opened::Op(_, operands) => count_all(heads, unit, itself, operands),
        Opened::Call(name, arguments) => {
            let sites = sites_of_callee(find_callee(heads, unit, name));
            let called = itself.plus(sites, 0);
            count_all(heads, unit, called, arguments)
        }
    }
}

// The counts with those of several expressions added.
#[cycle(counting)]
fn count_all(heads: &Heads, unit: u32, before: Counts, es: &[Expr]) -> Counts
    ensures { Adds before result (sites_list (known heads.now unit) (shown_trees es.now)) (nodes_list (shown_trees es.now)) }
{
    let mut counts = before;
    for e in es {
        counts = count(heads, unit, counts, e);
    }
    counts
}

#[cycle(counting)]
fn count_binds(heads: &Heads, unit: u32, before: Counts, binds: &[Bind]) -> Counts
    ensures { Adds before result (sites_bounds (known heads.now unit) (shown_bounds binds.now)) (nodes_bounds (shown_bounds binds.now)) }
{
    let mut counts = before;
    for b in binds {
        counts = count(heads, unit, counts, &b.value);
    }
    counts
}

// The counts with those of labelled arms added. An arm stands for an if whose test compares a variable with the label:
// three nodes beside the label and the value.
#[cycle(counting)]
fn count_arms(heads: &Heads, unit: u32, before: Counts, arms: &[Arm]) -> Counts
    ensures { Adds before result (sites_labelled (known heads.now unit) (shown_labelled arms.now)) (nodes_labelled (shown_labelled arms.now)) }
{
    let mut counts = before;
    for arm in arms {
        let itself = counts.plus(0, 3);
        let upto_label = count(heads, unit, itself, &arm.label);
        counts = count(heads, unit, upto_label, &arm.value);
    }
    counts
}
