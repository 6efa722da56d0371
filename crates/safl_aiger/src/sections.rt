//! The sections of a text: the lines of inputs, latches, outputs and ANDs.

ghost use Rattle.std.specs.Prelude.{◌≡◌, ◌+◌, ◌-◌, ◌^◌, ◌<◌, ◌≤◌, [], ◌∷◌, length, drop, replicate, OnOk, IfOk, IfErr};
ghost use Rattle.safl_aiger.specs.Lines.{text_lines};
ghost use Rattle.safl_aiger.specs.Reads.{IsGood, BreaksLine, counts, total, line_kinds, numbers_found, kinds_from, own_numbers, latch_numbers, output_numbers, and_numbers};
ghost use Rattle.safl_aiger.specs.Sections.{Passes, Stops, Fails, IsWithin, Later, BodyIs};

use crate::lines::line_end;
use crate::literal::Lit;
use crate::reading::{AigRule, Found, Header, LineKind, check_line};
use std::alloc::Global;

/// The numbers of a line, and where the next line begins.
#[derive(Clone, Copy)]
pub struct Step {
    pub found: Found,
    pub next: usize,
}

/// The rule that a line breaks, and the number of that line within its section, from 0.
#[derive(Clone, Copy)]
pub struct Stop {
    pub rule: AigRule,
    pub place: u32,
}

/// Why a section cannot be read.
#[derive(Clone, Copy)]
pub enum SectionErr {
    Stopped(Stop),
    NoMemory,
}

/// Reads the line that begins at `at`.
pub fn read_step(text: &[u8], at: usize, kind: LineKind, variables: u32) -> Result<Step, AigRule>
    requires { variables < 2 ^ 31 }
    ensures ok { IfOk result (λ s. Passes text.now variables at (kind ∷ []) (numbers_found kind s.found ∷ []) s.next) }
    ensures good { IfOk result (λ s. IsGood variables kind (numbers_found kind s.found)) }
    ensures err { IfErr result (BreaksLine variables kind (text_lines (drop at text.now))) }
{
    if at >= text.len() {
        return Err(AigRule::B02);
    }
    let end = line_end(text, at);
    let found = check_line(&text[at..end], kind, variables)?;
    Ok(Step {
        found,
        next: end + 1,
    })
}

/// Reads `count` lines of inputs, from `at` on. The result is where the next line begins.
pub fn read_inputs(text: &[u8], at: usize, count: u32, variables: u32) -> Result<usize, Stop>
    requires small { variables < 2 ^ 31 }
    requires few { count ≤ variables }
    ensures ok { IfOk result (λ next. Passes text.now variables at (kinds_from LineKind.Input 1 count) (own_numbers 1 count) next) }
    ensures err { IfErr result (λ s. Stops text.now variables at (kinds_from LineKind.Input 1 count) s.rule s.place) }
    ensures place { IfErr result (λ s. s.place < count) }
{
    let mut place = at;
    for i in 0..count {
        match read_step(text, place, LineKind::Input(1 + i), variables) {
            Ok(s) => place = s.next,
            Err(rule) => return Err(Stop { rule, place: i }),
        }
    }
    Ok(place)
}

/// Reads `count` lines of latches, from `at` on.
pub fn read_latches(
    text: &[u8],
    at: usize,
    first: u32,
    count: u32,
    variables: u32,
    nexts: &mut Vec<Lit>,
) -> Result<usize, SectionErr>
    requires small { variables < 2 ^ 31 }
    requires few { first + count ≤ variables + 1 }
    requires none { nexts.old.items ≡ [] }
    ensures count { OnOk result (length nexts.new.items ≡ count) }
    ensures ok { IfOk result (λ next. Passes text.now variables at (kinds_from LineKind.Latch first count) (latch_numbers first nexts.new.items) next) }
    ensures err { IfErr result (Fails text.now variables at (kinds_from LineKind.Latch first count)) }
    ensures place { IfErr result (IsWithin count) }
{
    let mut place = at;
    for i in 0..count {
        match read_step(text, place, LineKind::Latch(first + i), variables) {
            Ok(s) => {
                let Ok(_) = nexts.push(Lit(s.found.second)) else {
                    return Err(SectionErr::NoMemory);
                };
                place = s.next;
            }
            Err(rule) => return Err(SectionErr::Stopped(Stop { rule, place: i })),
        }
    }
    Ok(place)
}

/// Reads `count` lines of outputs, from `at` on.
pub fn read_outputs(
    text: &[u8],
    at: usize,
    count: u32,
    variables: u32,
    outputs: &mut Vec<Lit>,
) -> Result<usize, SectionErr>
    requires small { variables < 2 ^ 31 }
    requires none { outputs.old.items ≡ [] }
    ensures count { OnOk result (length outputs.new.items ≡ count) }
    ensures ok { IfOk result (λ next. Passes text.now variables at (replicate count LineKind.Output) (output_numbers outputs.new.items) next) }
    ensures err { IfErr result (Fails text.now variables at (replicate count LineKind.Output)) }
    ensures place { IfErr result (IsWithin count) }
{
    let mut place = at;
    for i in 0..count {
        match read_step(text, place, LineKind::Output, variables) {
            Ok(s) => {
                let Ok(_) = outputs.push(Lit(s.found.first)) else {
                    return Err(SectionErr::NoMemory);
                };
                place = s.next;
            }
            Err(rule) => return Err(SectionErr::Stopped(Stop { rule, place: i })),
        }
    }
    Ok(place)
}

/// Reads `count` lines of ANDs, from `at` on.
pub fn read_ands(
    text: &[u8],
    at: usize,
    first: u32,
    count: u32,
    variables: u32,
    ands: &mut Vec<(Lit, Lit)>,
) -> Result<usize, SectionErr>
    requires small { variables < 2 ^ 31 }
    requires few { first + count ≤ variables + 1 }
    requires none { ands.old.items ≡ [] }
    ensures count { OnOk result (length ands.new.items ≡ count) }
    ensures ok { IfOk result (λ next. Passes text.now variables at (kinds_from LineKind.And first count) (and_numbers first ands.new.items) next) }
    ensures err { IfErr result (Fails text.now variables at (kinds_from LineKind.And first count)) }
    ensures place { IfErr result (IsWithin count) }
{
    let mut place = at;
    for i in 0..count {
        match read_step(text, place, LineKind::And(first + i), variables) {
            Ok(s) => {
                let Ok(_) = ands.push((Lit(s.found.second), Lit(s.found.third))) else {
                    return Err(SectionErr::NoMemory);
                };
                place = s.next;
            }
            Err(rule) => return Err(SectionErr::Stopped(Stop { rule, place: i })),
        }
    }
    Ok(place)
}

/// The body of a text, and where the text after the body begins.
#[derive(Drop)]
pub struct Body {
    pub nexts: Vec<Lit>,
    pub outputs: Vec<Lit>,
    pub ands: Vec<(Lit, Lit)>,
    pub next: usize,
}

// The same error, counted in a longer section: `lines` lines stand before the ones that it counts.
fn later(e: SectionErr, lines: u32) -> SectionErr
    requires { IsWithin (4294967296 - lines) e }
    ensures { Later lines e result }
{
    match e {
        SectionErr::Stopped(s) => SectionErr::Stopped(Stop {
            rule: s.rule,
            place: s.place + lines,
        }),
        SectionErr::NoMemory => SectionErr::NoMemory,
    }
}

/// Reads the lines between the header and the symbols.
pub fn read_body(alloc: Global, text: &[u8], at: usize, h: Header) -> Result<Body, SectionErr>
    requires sum { h.inputs + h.latches + h.ands < 2 ^ 31 }
    requires outputs { h.outputs < 2 ^ 31 }
    ensures ok { IfOk result (λ b. BodyIs text.now at (counts h) b) }
    ensures err { IfErr result (Fails text.now (total (counts h)) at (line_kinds (counts h))) }
{
    let variables = h.inputs + h.latches + h.ands;
    let mut nexts = Vec::new(alloc);
    let mut outputs = Vec::new(alloc);
    let mut ands = Vec::new(alloc);
    let place = match read_inputs(text, at, h.inputs, variables) {
        Ok(next) => next,
        Err(s) => return Err(SectionErr::Stopped(s)),
    };
    let place = match read_latches(text, place, 1 + h.inputs, h.latches, variables, &mut nexts) {
        Ok(next) => next,
        Err(e) => return Err(later(e, h.inputs)),
    };
    let place = match read_outputs(text, place, h.outputs, variables, &mut outputs) {
        Ok(next) => next,
        Err(e) => return Err(later(e, h.inputs + h.latches)),
    };
    let first = 1 + h.inputs + h.latches;
    let next = match read_ands(text, place, first, h.ands, variables, &mut ands) {
        Ok(next) => next,
        Err(e) => return Err(later(e, h.inputs + h.latches + h.outputs)),
    };
    Ok(Body {
        nexts,
        outputs,
        ands,
        next,
    })
}
