//! The depths of bodies.

ghost use Rattle.std.specs.Prelude.{◌≤◌, ◌↔◌, IsTrue, max};
ghost use Rattle.safl_tree.specs.Tree.{trees_of, binds_of, arms_of, depth, deepest, deepest_bind, deepest_arm};
ghost use Rattle.safl_tree.specs.Shown.{shown_tree, shown_trees, shown_bounds, shown_labelled};

use crate::opened::{Opened, top};
use crate::tree::{Arm, Bind, Expr};

/// Whether an expression is at most `levels` deep. A `case` counts as the let and the ifs that it stands for. Nothing
/// deeper is looked at.
#[cycle(within)]
pub fn is_within(e: &Expr, levels: u32) -> bool
    ensures { IsTrue result ↔ depth (shown_tree e.now) ≤ levels }
{
    if levels == 0 {
        return false;
    }
    let below = levels - 1;
    match top(e) {
        Opened::Num(_) | Opened::Sized(_, _) | Opened::Var(_) => true,
        Opened::If(condition, first, second) => is_choice_within(condition, first, second, below),
        Opened::Let(binds, body) => is_let_within(binds, body, below),
        Opened::Case(scrutinee, arms, default) => is_case_within(scrutinee, arms, default, below),
        Opened::Op(_, operands) => are_within(operands, below),
        Opened::Call(_, arguments) => are_within(arguments, below),
    }
}

#[cycle(within)]
fn is_choice_within(condition: &Expr, first: &Expr, second: &Expr, levels: u32) -> bool
    ensures { IsTrue result ↔ max (depth (shown_tree condition.now)) (max (depth (shown_tree first.now)) (depth (shown_tree second.now))) ≤ levels }
{
    is_within(condition, levels) && is_within(first, levels) && is_within(second, levels)
}

// Whether a let with these bindings and this body is within the levels.
#[cycle(within)]
fn is_let_within(binds: &[Bind], body: &Expr, levels: u32) -> bool
    ensures { IsTrue result ↔ max (deepest_bind (binds_of (shown_bounds binds.now))) (depth (shown_tree body.now)) ≤ levels }
{
    for bind in binds {
        if !is_within(&bind.value, levels) {
            return false;
        }
    }
    is_within(body, levels)
}

#[cycle(within)]
fn is_case_within(scrutinee: &Expr, arms: &[Arm], default: &Expr, levels: u32) -> bool
    ensures { IsTrue result ↔ max (depth (shown_tree scrutinee.now)) (deepest_arm (arms_of (shown_labelled arms.now) (shown_tree default.now))) ≤ levels }
{
    is_within(scrutinee, levels) && are_arms_within(arms, default, levels)
}

// Whether the arms of a case are within the levels. Each arm stands for an if, whose test is two deep.
#[cycle(within)]
fn are_arms_within(arms: &[Arm], default: &Expr, levels: u32) -> bool
    ensures { IsTrue result ↔ deepest_arm (arms_of (shown_labelled arms.now) (shown_tree default.now)) ≤ levels }
{
    let mut left = levels;
    for arm in arms {
        if left <= 2 {
            return false;
        }
        left -= 1;
        if !is_within(&arm.value, left) {
            return false;
        }
    }
    is_within(default, left)
}

// Whether all of several expressions, such as operands or arguments, are within the levels.
#[cycle(within)]
fn are_within(es: &[Expr], levels: u32) -> bool
    ensures { IsTrue result ↔ deepest (trees_of (shown_trees es.now)) ≤ levels }
{
    for e in es {
        if !is_within(e, levels) {
            return false;
        }
    }
    true
}
