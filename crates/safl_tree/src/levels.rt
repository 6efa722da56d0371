//! Whether a program's text with as few parentheses as possible keeps the limits on nesting.

ghost use Rattle.std.specs.Prelude.{◌≡◌, ◌↔◌, true, IsTrue};
ghost use Rattle.safl_tree.specs.Tree.{trees_of, binds_of, arms_of};
ghost use Rattle.safl_tree.specs.Shown.{shown_tree, shown_trees, shown_bounds, shown_labelled, shown_program};
ghost use Rattle.safl_tree.specs.Printable.{is_binary, AllKeepLevels};
ghost use Rattle.safl_tree.specs.Keeps.{Keeps, PartKeeps, PartsKeep, OperandsKeep, BindingsKeep, ArmsKeep};

use crate::precedence::{is_binary, layers_of, left_context, right_context};
use crate::{Arm, Bind, Expr, Opened, Program, top};
use safl_word::Primitive;

// The levels that a text may have, and a depth that no expression exceeds whose text keeps them. The depth bounds the
// recursion.
const LEVELS: u16 = 100;

const DEPTH: u16 = 1100;

// The greatest depth of a left operand.
const LEFT_DEPTH: u16 = 99;

/// Whether each body's text with as few parentheses as possible takes at most 100 levels, and all left operands have a
/// depth of at most 99.
#[tactic(auto, using(crate::proofs::Depths::keeps_levels))]
pub fn levels_ok(p: &Program) -> bool
    ensures { IsTrue result ↔ AllKeepLevels (shown_program p.now) }
{
    for def in &p.defs {
        if !keeps(&def.body, LEVELS, DEPTH) {
            return false;
        }
    }
    true
}

// Whether an expression takes at most `levels` levels, its own included, and is at most `depth` deep.
#[cycle(keeps)]
fn keeps(e: &Expr, levels: u16, depth: u16) -> bool
    ensures { IsTrue result ↔ Keeps levels depth (shown_tree e.now) }
{
    if depth == 0 {
        return false;
    }
    let depth = depth - 1;
    match top(e) {
        Opened::Num(_) | Opened::Sized(..) | Opened::Var(_) => levels > 0,
        Opened::If(c, a, b) => levels > 0 && choice_keeps(c, a, b, levels - 1, depth),
        Opened::Let(bs, body) => levels > 0 && bindings_keep(bs, body, levels - 1, depth),
        Opened::Case(scrutinee, arms, default) => levels > 0
            && cases_keep(scrutinee, arms, default, levels - 1, depth),
        Opened::Op(p, es) => operands_keep(p, es, levels, depth),
        Opened::Call(_, es) => levels > 0 && parts_keep(es, 8, levels - 1, depth),
    }
}

#[cycle(keeps)]
fn choice_keeps(c: &Expr, a: &Expr, b: &Expr, levels: u16, depth: u16) -> bool
    ensures { IsTrue result ↔ (Keeps levels depth (shown_tree c.now) × Keeps levels depth (shown_tree a.now) × Keeps levels depth (shown_tree b.now)) }
{
    keeps(c, levels, depth) && keeps(a, levels, depth) && keeps(b, levels, depth)
}

// Whether the bindings of a let and its body keep the limits.
#[cycle(keeps)]
fn bindings_keep(bs: &[Bind], body: &Expr, levels: u16, depth: u16) -> bool
    ensures { IsTrue result ↔ (BindingsKeep levels depth (binds_of (shown_bounds bs.now)) × Keeps levels depth (shown_tree body.now)) }
{
    for b in bs {
        if !keeps(&b.value, levels, depth) {
            return false;
        }
    }
    keeps(body, levels, depth)
}

#[cycle(keeps)]
fn cases_keep(scrutinee: &Expr, arms: &[Arm], default: &Expr, levels: u16, depth: u16) -> bool
    ensures { IsTrue result ↔
        (Keeps levels depth (shown_tree scrutinee.now) × ArmsKeep levels depth (arms_of (shown_labelled arms.now) (shown_tree default.now))) }
{
    keeps(scrutinee, levels, depth) && arms_keep(arms, default, levels, depth)
}

// Whether the arms of a case keep the limits. Each arm is one level below the one before it, and stands for an if,
// whose test has depth 2.
#[cycle(keeps)]
fn arms_keep(arms: &[Arm], default: &Expr, levels: u16, depth: u16) -> bool
    ensures { IsTrue result ↔ ArmsKeep levels depth (arms_of (shown_labelled arms.now) (shown_tree default.now)) }
{
    let mut left = levels;
    let mut under = depth;
    for arm in arms {
        if left == 0 || under <= 2 {
            return false;
        }
        left -= 1;
        under -= 1;
        if !keeps(&arm.value, left, under) {
            return false;
        }
    }
    left > 0 && keeps(default, left - 1, under)
}

// Whether the operands of an operator keep the limits. Operands on both sides of an operator are at its own level.
#[cycle(keeps)]
fn operands_keep(p: Primitive, es: &[Expr], levels: u16, depth: u16) -> bool
    ensures { IsTrue result ↔ OperandsKeep p levels depth (trees_of (shown_trees es.now)) }
{
    if is_binary(p) {
        binary_keeps(p, es, levels, depth)
    } else {
        levels > 0 && parts_keep(es, right_context(p), levels - 1, depth)
    }
}

#[cycle(keeps)]
fn binary_keeps(p: Primitive, es: &[Expr], levels: u16, depth: u16) -> bool
    requires { is_binary p ≡ true }
    ensures { IsTrue result ↔ OperandsKeep p levels depth (trees_of (shown_trees es.now)) }
{
    match es {
        [] => true,
        [first, rest @ ..] => {
            part_keeps(first, left_context(p), levels, depth.min(LEFT_DEPTH))
                && parts_keep(rest, right_context(p), levels, depth)
        }
    }
}

#[cycle(keeps)]
fn parts_keep(es: &[Expr], place: u8, levels: u16, depth: u16) -> bool
    ensures { IsTrue result ↔ PartsKeep place levels depth (trees_of (shown_trees es.now)) }
{
    for e in es {
        if !part_keeps(e, place, levels, depth) {
            return false;
        }
    }
    true
}

// Whether an operand keeps the limits. Parentheses around it take one level; it needs them if its context has too few
// layers.
#[cycle(keeps)]
fn part_keeps(e: &Expr, place: u8, levels: u16, depth: u16) -> bool
    ensures { IsTrue result ↔ PartKeeps place levels depth (shown_tree e.now) }
{
    if layers_of(e) <= place {
        keeps(e, levels, depth)
    } else {
        levels > 0 && keeps(e, levels - 1, depth)
    }
}
