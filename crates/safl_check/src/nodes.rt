//! What rule E16 limits in a body, counted on a stack and not by recursion: a tree may be of any depth.

ghost use Rattle.std.specs.Prelude.{◌≡◌, ◌+◌, ◌*◌, ◌≤◌, ◌++◌, map, min, IfOk, OnOk};
ghost use Rattle.safl_tree.specs.Shown.{shown_tree, shown_trees};
ghost use Rattle.safl_word.specs.Limits.{bindings_max, sites_counted, nodes_counted};
ghost use Rattle.safl_typing.specs.PlainHeads.{known};
ghost use Rattle.safl_typing.specs.Heads.{sites};
ghost use Rattle.safl_typing.specs.Rewriting.{rewritten, nodes, excess, long_let};
ghost use Rattle.safl_check.specs.Parts.{parts, pending, values_of, arms_of, own_long_let, own_nodes, own_sites};

use safl_tree::tree::{Arm, Bind, Expr, Node};
use safl_typing::heads::{Heads, find_callee};
use safl_typing::sites::sites_of_callee;
use safl_word::NoMemory;
use safl_word::limits::{BINDINGS_MAX, NODES_COUNTED, SITES_COUNTED};
use std::alloc::Global;

/// What rule E16 limits, counted up to the end of a body.
#[derive(Clone, Copy)]
pub struct Measures {
    /// The place of the first binding beyond the limit, in the first let of the body that has too many.
    pub long_let: Option<u32>,
    /// The number of call sites, up to 4,001.
    pub sites: u32,
    /// The number of nodes after each `case` is rewritten, up to 50,001.
    pub nodes: u32,
}

/// Measures a body of group `unit`. The program has `sites` call sites and `nodes` nodes before it.
pub fn measure(
    alloc: Global,
    heads: &Heads,
    unit: u32,
    sites_before: u32,
    nodes_before: u32,
    body: &Expr,
) -> Result<Measures, NoMemory>
    requires sites { sites_before ≤ sites_counted }
    requires nodes { nodes_before ≤ nodes_counted }
    ensures long_let { IfOk result (λ m. m.long_let ≡ long_let (rewritten (shown_tree body.now))) }
    ensures sites { IfOk result (λ m. m.sites ≡ min sites_counted (sites_before + sites (known heads.now unit) (rewritten (shown_tree body.now)))) }
    ensures nodes { IfOk result (λ m. m.nodes ≡ min nodes_counted (nodes_before + nodes (rewritten (shown_tree body.now)))) }
{
    let mut long_let = None;
    let mut sites = sites_before;
    let mut nodes = nodes_before;
    let mut stack = Vec::new(alloc);
    stack.push(body)?;
    while let Some(e) = stack.pop() {
        long_let = long_let.or(find_excess_binding(e));
        sites = (sites + sites_at(heads, unit, e)).min(SITES_COUNTED);
        nodes = (nodes + nodes_at(e)).min(NODES_COUNTED);
        push_parts(&mut stack, e)?;
    }
    Ok(Measures {
        long_let,
        sites,
        nodes,
    })
}

// The place of the first binding beyond the limit, if this is a let with too many.
fn find_excess_binding(e: &Expr) -> Option<u32>
    ensures { result ≡ own_long_let (shown_tree e.now) }
{
    match &e.node {
        Node::Num(_) => None,
        Node::Sized(_, _) => None,
        Node::Var(_) => None,
        Node::If(_, _, _) => None,
        Node::Let(binds, _) => find_excess(binds),
        Node::Case(_, _, _) => None,
        Node::Op(_, _) => None,
        Node::Call(_, _) => None,
    }
}

fn find_excess(binds: &[Bind]) -> Option<u32>
    ensures { result ≡ excess bindings_max (map (λ b. b.place) binds.now) }
{
    let bind = binds.get(BINDINGS_MAX)?;
    Some(bind.place)
}

// 1 for a call of a function of another group, which is a call site; 0 for any other node.
fn sites_at(heads: &Heads, unit: u32, e: &Expr) -> u32
    ensures { result ≡ own_sites (known heads.now unit) (shown_tree e.now) }
{
    match &e.node {
        Node::Num(_) => 0,
        Node::Sized(_, _) => 0,
        Node::Var(_) => 0,
        Node::If(_, _, _) => 0,
        Node::Let(_, _) => 0,
        Node::Case(_, _, _) => 0,
        Node::Op(_, _) => 0,
        Node::Call(name, _) => sites_of_callee(find_callee(heads, unit, name)),
    }
}

// The number of nodes that an expression adds. A `case` stands for a let, and for each labelled arm an if and its test
// of two nodes.
fn nodes_at(e: &Expr) -> u32
    ensures { result ≡ min nodes_counted (own_nodes (shown_tree e.now)) }
{
    match &e.node {
        Node::Num(_) => 1,
        Node::Sized(_, _) => 1,
        Node::Var(_) => 1,
        Node::If(_, _, _) => 1,
        Node::Let(_, _) => 1,
        Node::Case(_, arms, _) => nodes_of_case(arms.len()),
        Node::Op(_, _) => 1,
        Node::Call(_, _) => 1,
    }
}

fn nodes_of_case(arms: usize) -> u32
    ensures { result ≡ min nodes_counted (1 + 3 * arms) }
{
    if arms < NODES_COUNTED as usize {
        (1 + 3 * arms as u32).min(NODES_COUNTED)
    } else {
        NODES_COUNTED
    }
}

// Pushes the parts of an expression, so that the first one is on top of the stack.
fn push_parts<'a>(stack: &mut Vec<&'a Expr>, e: &'a Expr) -> Result<(), NoMemory>
    ensures { OnOk result (pending stack.new.items ≡ parts (shown_tree e.now) ++ pending stack.old.items) }
{
    match &e.node {
        Node::Num(_) => Ok(()),
        Node::Sized(_, _) => Ok(()),
        Node::Var(_) => Ok(()),
        Node::If(condition, first, second) => {
            stack.push(second)?;
            stack.push(first)?;
            stack.push(condition)?;
            Ok(())
        }
        Node::Let(binds, body) => {
            stack.push(body)?;
            push_values(stack, binds)
        }
        Node::Case(scrutinee, arms, default) => {
            stack.push(default)?;
            push_arms(stack, arms)?;
            stack.push(scrutinee)?;
            Ok(())
        }
        Node::Op(_, operands) => push_all(stack, operands),
        Node::Call(_, arguments) => push_all(stack, arguments),
    }
}

fn push_all<'a>(stack: &mut Vec<&'a Expr>, es: &'a [Expr]) -> Result<(), NoMemory>
    ensures { OnOk result (pending stack.new.items ≡ shown_trees es.now ++ pending stack.old.items) }
{
    for i in (0..es.len()).rev() {
        stack.push(&es[i])?;
    }
    Ok(())
}

fn push_values<'a>(stack: &mut Vec<&'a Expr>, binds: &'a [Bind]) -> Result<(), NoMemory>
    ensures { OnOk result (pending stack.new.items ≡ values_of binds.now ++ pending stack.old.items) }
{
    for i in (0..binds.len()).rev() {
        let bind = &binds[i];
        stack.push(&bind.value)?;
    }
    Ok(())
}

fn push_arms<'a>(stack: &mut Vec<&'a Expr>, arms: &'a [Arm]) -> Result<(), NoMemory>
    ensures { OnOk result (pending stack.new.items ≡ arms_of arms.now ++ pending stack.old.items) }
{
    for i in (0..arms.len()).rev() {
        let arm = &arms[i];
        stack.push(&arm.value)?;
        stack.push(&arm.label)?;
    }
    Ok(())
}
