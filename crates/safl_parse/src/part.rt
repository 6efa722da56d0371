//! Expressions with their depths. Depths are counted up to the limit of a left operand.

ghost use Rattle.std.specs.Prelude.{◌≡◌, [], ◌∷◌, ◌++◌, ◌+◌, ◌≤◌, min, max, IfOk};
ghost use Rattle.safl_tree.specs.Tree.{depth as tree_depth, deepest, deepest_bind, deepest_arm, trees_of, binds_of, arms_of, Op, Call, Let, Cases, If};
ghost use Rattle.safl_tree.specs.Shown.{shown_tree, shown_trees, shown_bind, shown_bounds, shown_labelled};
ghost use Rattle.safl_parse.specs.Parts.{labelled_depth, with_arm};

use safl_tree::{Arm, Bind, Expr, Name, Node};
use safl_word::Primitive;
use std::alloc::{AllocError, Global};

/// One more than the greatest depth of a left operand.
pub const DEPTH_LIMIT: u8 = 100;

/// An expression and its depth, up to `DEPTH_LIMIT`.
#[derive(Drop)]
pub struct Part {
    pub expr: Expr,
    pub depth: u8,
    ghost capped: { depth ≡ min (tree_depth (shown_tree expr)) 100 },
}

impl Part {
    /// The expression without its depth.
    pub fn into_expr(self) -> Expr
        ensures { result ≡ self.expr }
    {
        self.expr
    }
}

/// Expressions, and the greatest of their depths, up to `DEPTH_LIMIT`.
#[derive(Drop)]
pub struct Parts {
    pub exprs: Vec<Expr>,
    pub depth: u8,
    ghost capped: { depth ≡ min (deepest (trees_of (shown_trees exprs.items))) 100 },
}

/// Bindings, and the greatest depth of a value, up to `DEPTH_LIMIT`.
#[derive(Drop)]
pub struct Bindings {
    pub binds: Vec<Bind>,
    pub depth: u8,
    ghost capped: { depth ≡ min (deepest_bind (binds_of (shown_bounds binds.items))) 100 },
}

/// Labelled arms, and the depth of the ifs that they stand for without the default, up to `DEPTH_LIMIT`.
#[derive(Drop)]
pub struct Labels {
    pub arms: Vec<Arm>,
    pub depth: u8,
    ghost capped: { depth ≡ min (labelled_depth (shown_labelled arms.items)) 100 },
}

/// All arms of a case, and the depth of the ifs that they stand for, up to `DEPTH_LIMIT`.
#[derive(Drop)]
pub struct AllArms {
    pub arms: Vec<Arm>,
    pub default: Expr,
    pub depth: u8,
    ghost capped: { depth ≡ min (deepest_arm (arms_of (shown_labelled arms.items) (shown_tree default))) 100 },
}

/// One more than a depth, up to `DEPTH_LIMIT`.
pub fn above(depth: u8) -> u8
    requires { depth ≤ 100 }
    ensures { result ≡ min (1 + depth) 100 }
{
    if depth < DEPTH_LIMIT {
        depth + 1
    } else {
        DEPTH_LIMIT
    }
}

/// A list of one expression.
pub fn single(alloc: Global, part: Part) -> Result<Parts, AllocError>
    ensures { IfOk result (λ x. shown_trees x.exprs.items ≡ shown_tree part.expr ∷ []) }
{
    let depth = part.depth;
    let exprs = vec![in alloc; part.expr]?;
    Ok(Parts { exprs, depth })
}

/// The expressions with one more at the end.
pub fn push(parts: Parts, next: Part) -> Result<Parts, AllocError>
    ensures { IfOk result (λ x. shown_trees x.exprs.items ≡ shown_trees parts.exprs.items ++ shown_tree next.expr ∷ []) }
{
    let depth = parts.depth.max(next.depth);
    let mut exprs = parts.exprs;
    exprs.push(next.expr)?;
    Ok(Parts { exprs, depth })
}

/// A list of one binding. `depth` is that of its value.
pub fn single_bind(alloc: Global, bind: Bind, depth: u8) -> Result<Bindings, AllocError>
    requires { depth ≡ min (tree_depth (shown_tree bind.value)) 100 }
    ensures { IfOk result (λ x. shown_bounds x.binds.items ≡ shown_bind bind ∷ []) }
{
    let binds = vec![in alloc; bind]?;
    Ok(Bindings { binds, depth })
}

/// The bindings with one more at the end. `depth` is that of its value.
pub fn push_bind(bindings: Bindings, next: Bind, depth: u8) -> Result<Bindings, AllocError>
    requires { depth ≡ min (tree_depth (shown_tree next.value)) 100 }
    ensures { IfOk result (λ x. shown_bounds x.binds.items ≡ shown_bounds bindings.binds.items ++ shown_bind next ∷ []) }
{
    let depth = bindings.depth.max(depth);
    let mut binds = bindings.binds;
    binds.push(next)?;
    Ok(Bindings { binds, depth })
}

/// An operator with its operands.
pub fn applied(place: u32, op: Primitive, operands: Parts) -> Part
    ensures { shown_tree result.expr ≡ Op place op (trees_of (shown_trees operands.exprs.items)) }
{
    let depth = above(operands.depth);
    Part {
        expr: Expr {
            place,
            node: Node::Op(op, operands.exprs),
        },
        depth,
    }
}

/// A call of this name with these arguments.
pub fn called(place: u32, name: Name, arguments: Parts) -> Part
    ensures { shown_tree result.expr ≡ Call place name (trees_of (shown_trees arguments.exprs.items)) }
{
    let depth = above(arguments.depth);
    Part {
        expr: Expr {
            place,
            node: Node::Call(name, arguments.exprs),
        },
        depth,
    }
}

/// A let of these bindings around a body.
pub fn bound(alloc: Global, place: u32, bindings: Bindings, body: Part) -> Result<Part, AllocError>
    ensures { IfOk result (λ x. shown_tree x.expr ≡ Let place (binds_of (shown_bounds bindings.binds.items)) (shown_tree body.expr)) }
{
    let depth = above(bindings.depth.max(body.depth));
    let body = Box::new(alloc, body.expr)?;
    Ok(Part {
        expr: Expr {
            place,
            node: Node::Let(bindings.binds, body),
        },
        depth,
    })
}

/// A list without arms.
pub fn no_labels(alloc: Global) -> Labels
    ensures { shown_labelled result.arms.items ≡ [] }
{
    Labels {
        arms: Vec::new(alloc),
        depth: 0,
    }
}

/// The depth of the if that an arm stands for, with `before` arms before it and a value of depth `depth`, up to
/// `DEPTH_LIMIT`.
fn arm_depth(before: usize, depth: u8) -> u8
    requires { depth ≤ 100 }
    ensures { result ≡ min (before + 1 + max 2 depth) 100 }
{
    if before < DEPTH_LIMIT as usize {
        let depth = before as u8 + 1 + depth.max(2);
        if depth < DEPTH_LIMIT {
            depth
        } else {
            DEPTH_LIMIT
        }
    } else {
        DEPTH_LIMIT
    }
}

/// The arms with one more at the end.
pub fn push_arm(labels: Labels, label: Expr, value: Part) -> Result<Labels, AllocError>
    ensures { IfOk result (λ x. shown_labelled x.arms.items ≡ with_arm (shown_labelled labels.arms.items) label value.expr) }
{
    let depth = labels.depth.max(arm_depth(labels.arms.len(), value.depth));
    let mut arms = labels.arms;
    arms.push(Arm {
        label,
        value: value.expr,
    })?;
    Ok(Labels { arms, depth })
}

/// The depth of a default after `before` arms, up to `DEPTH_LIMIT`.
fn default_depth(before: usize, depth: u8) -> u8
    requires { depth ≤ 100 }
    ensures { result ≡ min (before + depth) 100 }
{
    if before < DEPTH_LIMIT as usize {
        let depth = before as u8 + depth;
        if depth < DEPTH_LIMIT {
            depth
        } else {
            DEPTH_LIMIT
        }
    } else {
        DEPTH_LIMIT
    }
}

/// The arms with a default at the end.
pub fn with_default(labels: Labels, default: Part) -> AllArms
    ensures labelled { shown_labelled result.arms.items ≡ shown_labelled labels.arms.items }
    ensures default { shown_tree result.default ≡ shown_tree default.expr }
{
    let depth = labels
        .depth
        .max(default_depth(labels.arms.len(), default.depth));
    AllArms {
        arms: labels.arms,
        default: default.expr,
        depth,
    }
}

/// A case over these arms.
pub fn cased(alloc: Global, place: u32, scrutinee: Part, arms: AllArms) -> Result<Part, AllocError>
    ensures { IfOk result (λ x.
        shown_tree x.expr ≡ Cases place (shown_tree scrutinee.expr) (arms_of (shown_labelled arms.arms.items) (shown_tree arms.default))) }
{
    let depth = above(scrutinee.depth.max(arms.depth));
    let scrutinee = Box::new(alloc, scrutinee.expr)?;
    let default = Box::new(alloc, arms.default)?;
    Ok(Part {
        expr: Expr {
            place,
            node: Node::Case(scrutinee, arms.arms, default),
        },
        depth,
    })
}

/// An if of these three parts.
pub fn chosen(
    alloc: Global,
    place: u32,
    condition: Part,
    first: Part,
    second: Part,
) -> Result<Part, AllocError>
    ensures { IfOk result (λ x. shown_tree x.expr ≡ If place (shown_tree condition.expr) (shown_tree first.expr) (shown_tree second.expr)) }
{
    let depth = above(condition.depth.max(first.depth.max(second.depth)));
    let node = Node::If(
        Box::new(alloc, condition.expr)?,
        Box::new(alloc, first.expr)?,
        Box::new(alloc, second.expr)?,
    );
    Ok(Part {
        expr: Expr { place, node },
        depth,
    })
}
