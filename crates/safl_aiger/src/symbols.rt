//! Symbol lines, which name inputs, latches and outputs.

ghost use Rattle.std.specs.Prelude.{◌≡◌, ◌≢◌, ℕ, ◌+◌, ◌^◌, ◌<◌, ◌≤◌, [], length, drop, replicate, decimal, slice_index, ◌↔◌, IsTrue, IsNone, IfSome, IfOk, IfErr, OnOk};
ghost use Rattle.safl_aiger.specs.Circuits.{names_of};
ghost use Rattle.safl_aiger.specs.Lines.{text_lines};
ghost use Rattle.safl_aiger.specs.Reads.{NamesPlace, letter, unnamed, counts};
ghost use Rattle.safl_aiger.specs.Symbols.{named, IsSymbol, IsSymbolLine, IsSmall, Sets, IsTaken, IsRefused, SymbolsPass, SymbolsFail};

use crate::circuit::{Name, Names};
use crate::lines::{line_end, number, space};
use crate::reading::Header;
use safl_word::NoMemory;
use std::alloc::Global;

/// What a symbol line names.
#[derive(Clone, Copy, Debug, PartialEq, Eq)]
pub enum Sort {
    Input,
    Latch,
    Output,
}

/// A symbol line: what kind of thing it names, its number among those, and where in the line the name begins.
#[derive(Clone, Copy)]
pub struct Symbol {
    pub sort: Sort,
    pub place: u32,
    pub start: usize,
}

/// Why a symbol line is refused.
#[derive(Clone, Copy)]
pub enum SymbolErr {
    Refused,
    NoMemory,
}

/// Why the symbol lines cannot be read.
#[derive(Clone, Copy)]
pub enum SymbolsErr {
    /// The number of the first line that names nothing of the circuit.
    Stopped(u32),
    NoMemory,
}

/// The symbol that a line spells.
pub fn read_symbol(line: &[u8]) -> Option<Symbol>
    ensures some { IfSome result (IsSymbol line.now) }
    ensures none { IsNone result → ¬ (IsSymbolLine line.now) }
{
    if line.is_empty() {
        return None;
    }
    let sort = sort_of(line[0])?;
    let rest = &line[1..];
    let end = space(rest);
    if end + 1 >= rest.len() {
        return None;
    }
    let place = place_number(&rest[..end])?;
    Some(Symbol {
        sort,
        place,
        start: end + 2,
    })
}

fn sort_of(first: u8) -> Option<Sort>
    ensures some { IfSome result (λ s. first ≡ letter s) }
    ensures none { IsNone result → (s : Sort) → first ≢ letter s }
{
    match first {
        b'i' => Some(Sort::Input),
        b'l' => Some(Sort::Latch),
        b'o' => Some(Sort::Output),
        _ => None,
    }
}

// The number that a field spells in as few digits as possible.
fn place_number(field: &[u8]) -> Option<u32>
    ensures some { IfSome result (λ n. (n < 2 ^ 31) × (field.now ≡ decimal n)) }
    ensures none { IsNone result → (n : ℕ) → n < 2 ^ 31 → field.now ≢ decimal n }
{
    if is_padded(field) {
        return None;
    }
    number(field)
}

// Whether a field has a zero before other digits.
fn is_padded(field: &[u8]) -> bool
    ensures { IsTrue result ↔ ((1 < length field.now) × (slice_index field.now 0 ≡ 48)) }
{
    field.len() > 1 && field[0] == b'0'
}

/// An empty name for each input, latch and output that a header counts.
pub fn no_names(alloc: Global, h: Header) -> Result<Names, NoMemory>
    ensures { IfOk result (λ n. named n ≡ unnamed (counts h)) }
{
    Ok(Names {
        inputs: empty_names(alloc, h.inputs)?,
        latches: empty_names(alloc, h.latches)?,
        outputs: empty_names(alloc, h.outputs)?,
    })
}

fn empty_names(alloc: Global, count: u32) -> Result<Vec<Name>, NoMemory>
    ensures { IfOk result (λ r. names_of r.items ≡ replicate count []) }
{
    let mut all = Vec::new(alloc);
    for _i in 0..count {
        all.push(Name {
            bytes: Vec::new(alloc),
        })?;
    }
    Ok(all)
}

// Sets the name at `place` in a list.
fn set_name(alloc: Global, list: &mut Vec<Name>, place: u32, name: &[u8]) -> Result<(), SymbolErr>
    requires { 1 ≤ length name.now }
    ensures ok { OnOk result (Sets (names_of list.old.items) place name.now (names_of list.new.items)) }
    ensures err { IfErr result (IsTaken (names_of list.old.items) place) }
{
    let place = place as usize;
    if place >= list.len() {
        return Err(SymbolErr::Refused);
    }
    if !list[place].bytes.is_empty() {
        return Err(SymbolErr::Refused);
    }
    let Ok(bytes) = Vec::from_slice(alloc, name) else {
        return Err(SymbolErr::NoMemory);
    };
    list[place] = Name { bytes };
    Ok(())
}

/// Gives an input, a latch or an output the name that a symbol line spells.
pub fn name_place(alloc: Global, names: &mut Names, line: &[u8]) -> Result<(), SymbolErr>
    requires { IsSmall (named names.old) }
    ensures ok { OnOk result (NamesPlace line.now (named names.old) (named names.new)) }
    ensures err { IfErr result (IsRefused line.now (named names.old)) }
{
    let Some(symbol) = read_symbol(line) else {
        return Err(SymbolErr::Refused);
    };
    let name = &line[symbol.start..];
    match symbol.sort {
        Sort::Input => set_name(alloc, &mut names.inputs, symbol.place, name),
        Sort::Latch => set_name(alloc, &mut names.latches, symbol.place, name),
        Sort::Output => set_name(alloc, &mut names.outputs, symbol.place, name),
    }
}

/// Reads the symbol lines from `at` on. The text has `before` lines before them.
pub fn read_symbols(
    alloc: Global,
    text: &[u8],
    at: usize,
    before: u32,
    names: &mut Names,
) -> Result<(), SymbolsErr>
    requires short { length text.now < 2 ^ 32 }
    requires lines { before + length (text_lines (drop at text.now)) < 2 ^ 32 }
    requires small { IsSmall (named names.old) }
    ensures ok { OnOk result (SymbolsPass (text_lines (drop at text.now)) (named names.old) (named names.new)) }
    ensures err { IfErr result (SymbolsFail (text_lines (drop at text.now)) before (named names.old)) }
{
    let mut place = at;
    let mut count = before;
    while place < text.len() {
        let end = line_end(text, place);
        let line = &text[place..end];
        if line == b"c".as_slice() {
            return Ok(());
        }
        match name_place(alloc, names, line) {
            Ok(()) => {}
            Err(SymbolErr::Refused) => return Err(SymbolsErr::Stopped(count + 1)),
            Err(SymbolErr::NoMemory) => return Err(SymbolsErr::NoMemory),
        }
        place = end + 1;
        count += 1;
    }
    Ok(())
}
