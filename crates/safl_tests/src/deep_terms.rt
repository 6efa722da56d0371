//! Terms of any depth are freed without recursion.

use safl_term::Term;
use safl_word::{NoMemory, Primitive};
use std::alloc::Global;
use std::test::Fail;

const LEVELS: u32 = 1_000_000;

// Adds a level above a term. Each kind of term has its turn, and in it each of its parts.
fn over(alloc: Global, level: u32, t: Term) -> Result<Term, NoMemory> {
    match level % 9 {
        0 => Ok(Term::Op(Primitive::Not, vec![in alloc; t]?)),
        1 => Ok(Term::Op(Primitive::Add, vec![in alloc; leaf(), t]?)),
        2 => Ok(Term::Call(0, 1, vec![in alloc; t, leaf()]?)),
        3 => Ok(Term::Loop(0, vec![in alloc; leaf(), t, leaf()]?)),
        4 => choice(alloc, t, leaf(), leaf()),
        5 => choice(alloc, leaf(), t, leaf()),
        6 => choice(alloc, leaf(), leaf(), t),
        7 => bind(alloc, t, leaf()),
        _ => bind(alloc, leaf(), t),
    }
}

fn leaf() -> Term {
    Term::Var(0)
}

fn choice(alloc: Global, condition: Term, first: Term, second: Term) -> Result<Term, NoMemory> {
    Ok(Term::If(
        Box::new(alloc, condition)?,
        Box::new(alloc, first)?,
        Box::new(alloc, second)?,
    ))
}

fn bind(alloc: Global, value: Term, body: Term) -> Result<Term, NoMemory> {
    Ok(Term::Let(0, vec![in alloc; value]?, Box::new(alloc, body)?))
}

#[test]
fn a_term_of_a_million_levels_is_dropped(rt: HostRuntime) -> Result<(), Fail> {
    let mut t = leaf();
    for level in 0..LEVELS {
        t = over(rt.alloc(), level, t)?;
    }
    assert!(rt; !matches!(&t, Term::Var(_)));
    Ok(())
}
