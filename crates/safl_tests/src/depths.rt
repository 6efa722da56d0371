//! Bodies of the greatest depth that the stack has to hold, and deeper ones.

ghost use Rattle.std.specs.Prelude.{IfOk};
ghost use Rattle.safl_tree.specs.Printable.{IsFormed, IsFormedProgram};
ghost use Rattle.safl_tree.specs.Shown.{shown_tree, shown_program};

use safl_check::{CheckErr, check};
use safl_term::Checked;
use safl_tree::{Def, Expr, Name, Node, Program};
use safl_word::{Fault, NoMemory, Primitive, Raw, Rule};
use std::alloc::Global;
use std::test::Fail;

// `levels` times `~` over a number.
fn nested(alloc: Global, levels: u32) -> Result<Expr, NoMemory>
    ensures { IfOk result (λ e. IsFormed (shown_tree e)) }
{
    let mut e = Expr {
        place: levels,
        node: Node::Num(Raw::from(1u8)),
    };
    for level in 0..levels {
        let operands = vec![in alloc; e]?;
        e = Expr {
            place: levels - level - 1,
            node: Node::Op(Primitive::Not, operands),
        };
    }
    Ok(e)
}

// A program of one function without parameters, whose name is at place 4.
fn program_of(alloc: Global, body: Expr) -> Result<Program, NoMemory>
    requires { IsFormed (shown_tree body) }
    ensures { IfOk result (λ p. IsFormedProgram (shown_program p)) }
{
    let def = Def {
        joined: false,
        place: 4,
        name: Name::new(alloc, b"main")?,
        params: Vec::new(alloc),
        width: 8,
        body,
    };
    Ok(Program {
        defs: vec![in alloc; def]?,
    })
}

fn check_nested(alloc: Global, levels: u32) -> Result<Result<Checked, CheckErr>, NoMemory> {
    let body = nested(alloc, levels)?;
    let program = program_of(alloc, body)?;
    Ok(check(alloc, program))
}

#[test]
fn a_deep_tree_is_refused_and_not_followed(rt: HostRuntime) -> Result<(), Fail> {
    let answer = check_nested(rt.alloc(), 1_000_000)?;
    let fault = Fault::with(Rule::E16, 4, 5, 50_000);
    assert!(rt; matches!(answer, Err(CheckErr::Refused(f)) if f == fault));
    Ok(())
}

#[test]
fn a_nest_as_deep_as_the_stack_is_taken_to_hold_is_checked(rt: HostRuntime) -> Result<(), Fail> {
    let answer = check_nested(rt.alloc(), 1_999)?;
    assert!(rt; answer.is_ok());
    Ok(())
}

#[test]
fn a_deeper_nest_is_too_deep(rt: HostRuntime) -> Result<(), Fail> {
    let answer = check_nested(rt.alloc(), 2_000)?;
    assert!(rt; matches!(answer, Err(CheckErr::TooDeep)));
    Ok(())
}
