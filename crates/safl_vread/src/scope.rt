//! What a file declares, by name.

ghost use Rattle.std.specs.Prelude.{◌≡◌, ◌≤◌, ℕ, [], IfOk, None, slice_index};
ghost use Rattle.std.specs.List.{flat_map};
ghost use Rattle.safl_word.specs.Limits.{width_max};
ghost use Rattle.safl_verilog.specs.Faults.{range_faults, range_width, is_signal, repeat_faults};
ghost use Rattle.safl_verilog.specs.FaultParts.{declared_number_faults, declared_names};
ghost use Rattle.safl_vparse.specs.Shown.{shown_declarations, shown_range};
ghost use Rattle.safl_vread.specs.Lists.{names_of, widths_of};

use crate::names::Names;
use crate::spans::bytes_of;
use safl_verilog::Sort;
use safl_vparse::numbers::bounded;
use safl_vparse::{Declaration, Range};
use safl_word::Raw;
use safl_word::limits::WIDTH_MAX;
use std::alloc::{AllocError, Global};

/// The declaration of a name: its place, its sort, its width in bits, and whether it is that of a signal: a register, a
/// wire, or an input other than the clock and the reset.
#[derive(Clone, Copy, Debug, PartialEq, Eq)]
pub struct Item {
    pub place: usize,
    pub sort: Sort,
    pub width: u8,
    pub signal: bool,
}

/// The declarations of a file, with their names and their widths in bits.
#[derive(Drop)]
pub struct Scope<'t> {
    pub text: &'t [u8],
    pub declarations: &'t [Declaration],
    pub names: Names<'t>,
    pub widths: Vec<u8>,
    ghost named: { names ≡ names_of (shown_declarations text.now declarations.now) },
    ghost apart: { repeat_faults [] (declared_names (shown_declarations text.now declarations.now)) ≡ [] },
    ghost measured: { widths.items ≡ widths_of (shown_declarations text.now declarations.now) },
    ghost small: { (k : ℕ) → slice_index widths.items k ≤ width_max },
}

impl<'t> Scope<'t> {
    ghost use Rattle.std.specs.Prelude.{◌≡◌, ◌<◌, length, slice_index};
    ghost use Rattle.safl_verilog.specs.Faults.{find};
    ghost use Rattle.safl_vread.specs.Scopes.{Describes, declared_in};

    /// The declaration of a name, if there is one.
    pub fn find(&self, name: &[u8]) -> Option<Item>
        ensures { Describes (declared_in self.now) (find (declared_in self.now) name.now) result }
    {
        match self.names.place(name) {
            None => None,
            Some(place) => {
                let sort = self.declarations[place].sort;
                let width = self.widths[place];
                let signal = is_signal(sort, name);
                Some(Item {
                    place,
                    sort,
                    width,
                    signal,
                })
            }
        }
    }

    /// The width in bits of the declaration at a place.
    pub fn width_at(&self, place: usize) -> u8
        requires { place < length self.now.declarations.now }
        ensures { result ≡ slice_index self.now.widths.items place }
    {
        self.widths[place]
    }
}

// Whether a name that is declared as this sort is a signal.
fn is_signal(sort: Sort, name: &[u8]) -> bool
    ensures { result ≡ is_signal (record { sort = sort; range = None; name = record { place = 0; bytes = name.now } }) }
{
    match sort {
        Sort::Input => name != b"clk".as_slice() && name != b"rst".as_slice(),
        Sort::Output => false,
        Sort::Reg | Sort::Wire => true,
    }
}

/// The widths of declarations, in bits. Their ranges have to keep the rules on numbers.
pub fn widths_of(
    alloc: Global,
    text: &[u8],
    declarations: &[Declaration],
) -> Result<Vec<u8>, AllocError>
    requires { flat_map declared_number_faults (shown_declarations text.now declarations.now) ≡ [] }
    ensures { IfOk result (λ widths. widths.items ≡ widths_of (shown_declarations text.now declarations.now)) }
{
    let mut widths = Vec::new(alloc);
    for d in declarations {
        widths.push(width_of(text, d.range))?;
    }
    Ok(widths)
}

fn width_of(text: &[u8], range: Option<Range>) -> u8
    requires { range_faults (shown_range text.now range) ≡ [] }
    ensures { result ≡ range_width (shown_range text.now range) }
{
    let Some(range) = range else {
        return 1;
    };
    match bounded(10, bytes_of(text, range.high)) {
        Some(high) if high < Raw::from(WIDTH_MAX) => high as u8 + 1,
        _ => unreachable!(),
    }
}
