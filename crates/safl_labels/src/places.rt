//! Where in the text a condition stands.

use safl_tree::tree::{Arm, Bind, Expr, Node};
use safl_word::NoMemory;
use std::alloc::Global;

// More than a body that is accepted has parts.
const PARTS: u32 = 200_000;

// A part of a body: an expression, or an arm of the `case` at a place.
#[derive(Clone, Copy)]
enum Part<'a> {
    Whole(&'a Expr),
    Arm(u32, &'a Arm),
}

/// The place of the `if` with this number in a body, counted from 0 in the order of the text, as `Obstacle` has it. A
/// `case` counts as one `if` for each of its labelled arms, at the place of the `case`. None if there are not so many.
///
/// # Errors
///
/// Out of memory.
pub fn place_of_branch(alloc: Global, body: &Expr, branch: u32) -> Result<Option<u32>, NoMemory> {
    let mut left = branch;
    let mut stack = Vec::new(alloc);
    stack.push(Part::Whole(body))?;
    for _ in 0..PARTS {
        let Some(part) = stack.pop() else {
            return Ok(None);
        };
        if let Some(place) = own_branch(part) {
            if left == 0 {
                return Ok(Some(place));
            }
            left -= 1;
        }
        push_parts(&mut stack, part)?;
    }
    Ok(None)
}

// The place of a part that is an `if`.
fn own_branch(part: Part) -> Option<u32> {
    match part {
        Part::Whole(e) => match &e.node {
            Node::If(_, _, _) => Some(e.place),
            _ => None,
        },
        Part::Arm(place, _) => Some(place),
    }
}

// Pushes the parts of a part, so that the first one is on top of the stack.
fn push_parts<'a>(stack: &mut Vec<Part<'a>>, part: Part<'a>) -> Result<(), NoMemory> {
    match part {
        Part::Whole(e) => push_parts_of(stack, e),
        Part::Arm(_, arm) => {
            stack.push(Part::Whole(&arm.value))?;
            Ok(())
        }
    }
}

fn push_parts_of<'a>(stack: &mut Vec<Part<'a>>, e: &'a Expr) -> Result<(), NoMemory> {
    match &e.node {
        Node::If(condition, first, second) => {
            stack.push(Part::Whole(second))?;
            stack.push(Part::Whole(first))?;
            stack.push(Part::Whole(condition))?;
            Ok(())
        }
        Node::Let(binds, body) => {
            stack.push(Part::Whole(body))?;
            push_values(stack, binds)
        }
        Node::Case(scrutinee, arms, default) => {
            stack.push(Part::Whole(default))?;
            push_arms(stack, e.place, arms)?;
            stack.push(Part::Whole(scrutinee))?;
            Ok(())
        }
        Node::Op(_, operands) => push_all(stack, operands),
        Node::Call(_, arguments) => push_all(stack, arguments),
        _ => Ok(()),
    }
}

fn push_all<'a>(stack: &mut Vec<Part<'a>>, es: &'a [Expr]) -> Result<(), NoMemory> {
    for i in (0..es.len()).rev() {
        stack.push(Part::Whole(&es[i]))?;
    }
    Ok(())
}

fn push_values<'a>(stack: &mut Vec<Part<'a>>, binds: &'a [Bind]) -> Result<(), NoMemory> {
    for i in (0..binds.len()).rev() {
        let bind = &binds[i];
        stack.push(Part::Whole(&bind.value))?;
    }
    Ok(())
}

fn push_arms<'a>(stack: &mut Vec<Part<'a>>, place: u32, arms: &'a [Arm]) -> Result<(), NoMemory> {
    for i in (0..arms.len()).rev() {
        stack.push(Part::Arm(place, &arms[i]))?;
    }
    Ok(())
}
