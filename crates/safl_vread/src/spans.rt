//! The bytes of names and numbers in a text, and faults at them.

ghost use Rattle.std.specs.Prelude.{◌≡◌};
ghost use Rattle.std.specs.Str.{bytes_eq};
ghost use Rattle.safl_verilog.specs.Faults.{at, is_clock, is_reset};
ghost use Rattle.safl_vparse.specs.Shown.{shown_spot};

use safl_verilog::{VFault, VRule};
use safl_vparse::Span;

/// The bytes of a name or a number.
pub fn bytes_of<'t>(text: &'t [u8], span: Span) -> &'t [u8]
    ensures { result.now ≡ (shown_spot text.now span).bytes }
{
    let start = text.len().min(span.start as usize);
    let rest = &text[start..];
    let count = rest
        .len()
        .min(span.stop.saturating_sub(span.start) as usize);
    &rest[..count]
}

/// The fault of a rule that has no numbers.
pub fn fault_at(rule: VRule, place: u32) -> VFault
    ensures { result ≡ at rule place }
{
    VFault::new(rule, place)
}

/// Whether a name is `clk`.
pub fn is_clock(name: &[u8]) -> bool
    ensures { result ≡ is_clock name.now }
{
    name == b"clk".as_slice()
}

/// Whether a name is `rst`.
pub fn is_reset(name: &[u8]) -> bool
    ensures { result ≡ is_reset name.now }
{
    name == b"rst".as_slice()
}

/// Whether two names are the same.
pub fn same_bytes(a: &[u8], b: &[u8]) -> bool
    ensures { result ≡ bytes_eq a.now b.now }
{
    a == b
}
