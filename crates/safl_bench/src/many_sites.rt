//! A source with many call sites, and its plan.

ghost use Rattle.std.specs.Prelude.{◌≤◌};

use safl_compiler::accept;
use safl_sites::{Planned, plan};
use safl_term::Checked;
use std::alloc::{AllocError, Global};

/// How many functions have an arbiter at their unit, and how many call sites keep their words.
#[derive(Clone, Copy)]
pub struct Totals {
    pub arbiters: u32,
    pub kept: u32,
}

/// The checked program of the source. None if the source has a fault.
pub fn checked(alloc: Global) -> Result<Option<Checked>, AllocError> {
    let text = source(alloc)?;
    if text.len() > 1_048_576 {
        return Ok(None);
    }
    Ok(accept(alloc, text.as_bytes()).ok())
}

/// Plans a program, and counts its arbiters and kept words.
pub fn planned(alloc: Global, checked: Checked) -> Option<Totals> {
    let planned = plan(alloc, checked).ok()?;
    Some(Totals {
        arbiters: count_arbiters(&planned),
        kept: count_kept(&planned),
    })
}

fn count_arbiters(planned: &Planned) -> u32 {
    let mut count: u32 = 0;
    for f in 0..planned.checked().functions() {
        count = count.saturating_add(u32::from(planned.arbiter(f)));
    }
    count
}

fn count_kept(planned: &Planned) -> u32 {
    let mut count: u32 = 0;
    for done in 0..planned.checked().sites() {
        count = count.saturating_add(u32::from(planned.kept(done + 1)));
    }
    count
}

// The source: first functions without calls, then functions that call four of the functions before them.
fn source(alloc: Global) -> Result<String, AllocError> {
    let mut text = String::new(alloc);
    for i in 0..4 {
        text.push_str(&format!(in alloc; "fun f{i}(x:8):8 = x + {i}\n")?)?;
    }
    for i in 4..999 {
        let body = body(alloc, i)?;
        text.push_str(&format!(in alloc; "fun f{i}(x:8):8 = {body}\n")?)?;
    }
    text.push_str("fun main(x:8):8 = f998(x)\n")?;
    Ok(text)
}

// The body of function `i`.
fn body(alloc: Global, i: u32) -> Result<String, AllocError>
    requires { 4 ≤ i }
{
    let (a, b, c, d) = (i - 1, i - 2, i / 2, i % 4);
    match i % 3 {
        0 => format!(in alloc; "f{a}(f{b}(x) + f{c}(f{d}(x)))"),
        1 => format!(in alloc;
            "let y = f{a}(x), z = f{b}(x) in if f{c}(y) == 0 then f{d}(z) else y"
        ),
        _ => format!(in alloc; "if f{a}(x) == f{b}(x) then f{c}(x) else f{d}(x)"),
    }
}
