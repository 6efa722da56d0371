//! The rules on numbers in declarations, slices and literals.

ghost use Rattle.std.specs.Prelude.{◌≡◌, ◌==◌, []};
ghost use Rattle.std.specs.List.{flat_map};
ghost use Rattle.safl_word.specs.Numerals.{value};
ghost use Rattle.safl_verilog.specs.Faults.{number_faults, literal_faults, range_faults, expression_number_faults, stated_number_faults, all_number_faults};
ghost use Rattle.safl_verilog.specs.FaultParts.{declared_number_faults};
ghost use Rattle.safl_vparse.specs.Shown.{shown_spot, shown_range, shown_declarations, shown_expression, shown_statement, shown_statements};
ghost use Rattle.safl_vread.specs.Firsts.{first};
ghost use Rattle.safl_vread.specs.Parts.{parts_at};

use crate::spans::{bytes_of, fault_at};
use safl_verilog::{VFault, VRule};
use safl_vparse::numbers::{bounded, literal};
use safl_vparse::{Declaration, Expression, Range, Span, Statement};
use safl_word::Raw;
use safl_word::bytes::digit;
use safl_word::limits::WIDTH_MAX;

/// The first fault in the numbers of declarations and statements.
pub fn number_fault(
    text: &[u8],
    declarations: &[Declaration],
    statements: &[Statement],
) -> Option<VFault>
    ensures { result ≡ first (all_number_faults (parts_at text.now [] declarations.now statements.now)) }
{
    let declared = declared_fault(text, declarations);
    if declared.is_some() {
        declared
    } else {
        stated_fault(text, statements)
    }
}

fn declared_fault(text: &[u8], declarations: &[Declaration]) -> Option<VFault>
    ensures { result ≡ first (flat_map declared_number_faults (shown_declarations text.now declarations.now)) }
{
    for d in declarations {
        let fault = range_fault(text, d.range);
        if fault.is_some() {
            return fault;
        }
    }
    None
}

fn stated_fault(text: &[u8], statements: &[Statement]) -> Option<VFault>
    ensures { result ≡ first (flat_map stated_number_faults (shown_statements text.now statements.now)) }
{
    for s in statements {
        let fault = statement_fault(text, s);
        if fault.is_some() {
            return fault;
        }
    }
    None
}

fn range_fault(text: &[u8], range: Option<Range>) -> Option<VFault>
    ensures { result ≡ first (range_faults (shown_range text.now range)) }
{
    let Some(range) = range else {
        return None;
    };
    match bounded(10, bytes_of(text, range.high)) {
        None => Some(fault_at(VRule::V06, range.high.start)),
        Some(high) if high < Raw::from(WIDTH_MAX) && is_zero(bytes_of(text, range.low)) => {
            digits_fault(text, range.low)
        }
        Some(_) => Some(fault_at(VRule::V05, range.high.start)),
    }
}

fn statement_fault(text: &[u8], statement: &Statement) -> Option<VFault>
    ensures { result ≡ first (stated_number_faults (shown_statement text.now statement.now)) }
{
    match statement {
        Statement::Assign(_, expression) => expression_fault(text, expression),
        Statement::Always(update) => literal_fault(text, update.initial),
    }
}

fn expression_fault(text: &[u8], expression: &Expression) -> Option<VFault>
    ensures { result ≡ first (expression_number_faults (shown_expression text.now expression.now)) }
{
    match expression {
        Expression::Literal(span) => literal_fault(text, *span),
        Expression::Slice(_, high, low) => {
            let fault = digits_fault(text, *high);
            if fault.is_some() {
                fault
            } else {
                digits_fault(text, *low)
            }
        }
        _ => None,
    }
}

fn digits_fault(text: &[u8], number: Span) -> Option<VFault>
    ensures { result ≡ first (number_faults (shown_spot text.now number)) }
{
    match bounded(10, bytes_of(text, number)) {
        Some(_) => None,
        None => Some(fault_at(VRule::V06, number.start)),
    }
}

fn literal_fault(text: &[u8], number: Span) -> Option<VFault>
    ensures { result ≡ first (literal_faults (shown_spot text.now number)) }
{
    match literal(bytes_of(text, number)) {
        Some(_) => None,
        None => Some(fault_at(VRule::V06, number.start)),
    }
}

// Whether the digits spell 0, however many there are.
fn is_zero(bytes: &[u8]) -> bool
    ensures { result ≡ (value 10 bytes.now == 0) }
{
    for c in bytes {
        if digit(*c) != 0 {
            return false;
        }
    }
    true
}
