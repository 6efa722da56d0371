//! The lines of a text of a bit-level circuit.

ghost use Rattle.std.specs.Prelude.{◌≡◌, ◌+◌, ◌*◌, ◌^◌, ◌<◌, ◌↔◌, [], ◌∷◌, IsTrue, IsNone, IfSome, IfOk, IfErr};
ghost use Rattle.safl_aiger.specs.Lines.{HasNumbers, HasCount};
ghost use Rattle.safl_aiger.specs.Reads.{Counts, IsHeader, size, IsGood, IsBad, numbers_found, counts};

use crate::lines::{number, one_number, space, three_numbers, two_numbers};

/// The rules that a text has to keep: of its header, the form of its lines, its literals, and its symbols.
#[derive(Clone, Copy, Debug, PartialEq, Eq)]
pub enum AigRule {
    B01,
    B02,
    B03,
    B04,
}

/// The counts of a header. The number of variables, which the header has too, is the sum of inputs, latches and ANDs.
#[derive(Clone, Copy)]
pub struct Header {
    pub inputs: u32,
    pub latches: u32,
    pub outputs: u32,
    pub ands: u32,
}

/// The kind of a line: an input, a latch or an AND, each with its variable, or an output.
#[derive(Clone, Copy)]
pub enum LineKind {
    Input(u32),
    Latch(u32),
    Output,
    And(u32),
}

/// The numbers of a line. The kind of the line says how many there are; they come first.
#[derive(Clone, Copy)]
pub struct Found {
    pub first: u32,
    pub second: u32,
    pub third: u32,
}

/// The counts that a header line gives.
pub fn read_header(line: &[u8]) -> Option<Header>
    ensures some { IfSome result (λ h. IsHeader line.now (counts h)) }
    ensures small { IfSome result (λ h. h.inputs + h.latches + h.ands < 2 ^ 31) }
    ensures outputs { IfSome result (λ h. h.outputs < 2 ^ 31) }
    ensures none { IsNone result → (c : Counts) → ¬ (IsHeader line.now c) }
{
    if !line.starts_with(b"aag ") {
        return None;
    }
    let (total, counts) = five_numbers(&line[4..])?;
    let sum = u64::from(counts.inputs) + u64::from(counts.latches) + u64::from(counts.ands);
    if sum == u64::from(total) {
        return Some(counts);
    }
    None
}

fn five_numbers(line: &[u8]) -> Option<(u32, Header)>
    ensures some { IfSome result (λ n. HasNumbers line.now (n.0 ∷ n.1.inputs ∷ n.1.latches ∷ n.1.outputs ∷ n.1.ands ∷ [])) }
    ensures none { IsNone result → ¬ (HasCount line.now 5) }
{
    let end = space(line);
    if end == line.len() {
        return None;
    }
    let total = number(&line[..end])?;
    let (inputs, (latches, outputs, ands)) = four_numbers(&line[end + 1..])?;
    Some((
        total,
        Header {
            inputs,
            latches,
            outputs,
            ands,
        },
    ))
}

fn four_numbers(line: &[u8]) -> Option<(u32, (u32, u32, u32))>
    ensures some { IfSome result (λ n. HasNumbers line.now (n.0 ∷ n.1.0 ∷ n.1.1 ∷ n.1.2 ∷ [])) }
    ensures none { IsNone result → ¬ (HasCount line.now 4) }
{
    let end = space(line);
    if end == line.len() {
        return None;
    }
    let first = number(&line[..end])?;
    let rest = three_numbers(&line[end + 1..])?;
    Some((first, rest))
}

/// The numbers of a line, in a circuit of `variables` variables. The rule is the one that the line breaks.
pub fn check_line(line: &[u8], kind: LineKind, variables: u32) -> Result<Found, AigRule>
    requires { variables < 2 ^ 31 }
    ensures ok { IfOk result (λ f. HasNumbers line.now (numbers_found kind f) × IsGood variables kind (numbers_found kind f)) }
    ensures err { IfErr result (IsBad variables kind line.now) }
{
    let found = numbers_of(line, kind)?;
    if is_good(kind, variables, found) {
        return Ok(found);
    }
    Err(AigRule::B03)
}

fn numbers_of(line: &[u8], kind: LineKind) -> Result<Found, AigRule>
    ensures ok { IfOk result (λ f. HasNumbers line.now (numbers_found kind f)) }
    ensures err { IfErr result (λ e. (e ≡ AigRule.B02) × (¬ (HasCount line.now (size kind)))) }
{
    match kind {
        LineKind::Input(_) | LineKind::Output => match one_number(line) {
            Some(first) => Ok(Found {
                first,
                second: 0,
                third: 0,
            }),
            None => Err(AigRule::B02),
        },
        LineKind::Latch(_) => match two_numbers(line) {
            Some((first, second)) => Ok(Found {
                first,
                second,
                third: 0,
            }),
            None => Err(AigRule::B02),
        },
        LineKind::And(_) => match three_numbers(line) {
            Some((first, second, third)) => Ok(Found {
                first,
                second,
                third,
            }),
            None => Err(AigRule::B02),
        },
    }
}

fn is_good(kind: LineKind, variables: u32, found: Found) -> bool
    requires { variables < 2 ^ 31 }
    ensures { IsTrue result ↔ IsGood variables kind (numbers_found kind found) }
{
    match kind {
        LineKind::Input(v) => u64::from(found.first) == 2 * u64::from(v),
        LineKind::Latch(v) => {
            u64::from(found.first) == 2 * u64::from(v)
                && u64::from(found.second) <= 2 * u64::from(variables) + 1
        }
        LineKind::Output => u64::from(found.first) <= 2 * u64::from(variables) + 1,
        LineKind::And(v) => {
            u64::from(found.first) == 2 * u64::from(v)
                && u64::from(found.second) < 2 * u64::from(v)
                && u64::from(found.third) < 2 * u64::from(v)
        }
    }
}
