//! Trees of any depth are freed without recursion.

use safl_tree::{Arm, Bind, Def, Expr, Name, Node, Program, levels_ok};
use safl_word::{NoMemory, Primitive};
use std::alloc::Global;
use std::test::Fail;

const LEVELS: u32 = 1_000_000;

const MIXED_LEVELS: u32 = 100_000;

fn leaf() -> Expr {
    Expr {
        place: 0,
        node: Node::Num(1),
    }
}

// Adds a level above an expression. Each kind of node has its turn, and in it each of its parts.
fn over(alloc: Global, level: u32, e: Expr) -> Result<Expr, NoMemory> {
    let node = match level % 10 {
        0 => Node::Op(Primitive::Not, vec![in alloc; e]?),
        1 => Node::Op(Primitive::Add, vec![in alloc; e, leaf()]?),
        2 => Node::Op(Primitive::Add, vec![in alloc; leaf(), e]?),
        3 => Node::Call(Name::new(alloc, b"f")?, vec![in alloc; leaf(), e, leaf()]?),
        4 => Node::If(
            boxed(alloc, e)?,
            boxed(alloc, leaf())?,
            boxed(alloc, leaf())?,
        ),
        5 => Node::If(
            boxed(alloc, leaf())?,
            boxed(alloc, leaf())?,
            boxed(alloc, e)?,
        ),
        6 => bind(alloc, e, leaf())?,
        7 => bind(alloc, leaf(), e)?,
        8 => case(alloc, e, leaf())?,
        _ => case(alloc, leaf(), e)?,
    };
    Ok(Expr { place: level, node })
}

fn boxed(alloc: Global, e: Expr) -> Result<Box<Expr>, NoMemory> {
    Ok(Box::new(alloc, e)?)
}

fn bind(alloc: Global, value: Expr, body: Expr) -> Result<Node, NoMemory> {
    let bind = Bind {
        place: 0,
        name: Name::new(alloc, b"x")?,
        width: None,
        value,
    };
    Ok(Node::Let(vec![in alloc; bind]?, boxed(alloc, body)?))
}

// A case with such a label. No text has one, but a tree may.
fn case(alloc: Global, label: Expr, value: Expr) -> Result<Node, NoMemory> {
    let arms = vec![in alloc; Arm { label, value }]?;
    Ok(Node::Case(boxed(alloc, leaf())?, arms, boxed(alloc, leaf())?))
}

#[test]
fn a_deep_tree_of_all_kinds_of_nodes_is_dropped(rt: HostRuntime) -> Result<(), Fail> {
    let mut e = leaf();
    for level in 0..MIXED_LEVELS {
        e = over(rt.alloc(), level, e)?;
    }
    assert_eq!(rt; e.place, MIXED_LEVELS - 1);
    Ok(())
}

#[test]
fn a_program_of_a_million_levels_is_dropped(rt: HostRuntime) -> Result<(), Fail> {
    let mut body = leaf();
    for _level in 0..LEVELS {
        body = over(rt.alloc(), 0, body)?;
    }
    let def = Def {
        joined: false,
        place: 4,
        name: Name::new(rt.alloc(), b"main")?,
        params: Vec::new(rt.alloc()),
        width: 8,
        body,
    };
    let program = Program {
        defs: vec![in rt.alloc(); def]?,
    };
    assert!(rt; !levels_ok(&program));
    Ok(())
}
