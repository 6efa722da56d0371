//! Expressions: their operations, operands and widths.

ghost use Rattle.std.specs.Prelude.{◌≡◌, [], ◌≤◌, ◌<◌, slice_index, length, ◌∷◌, All, IfOk, IfSome, IfNone, Some, None, unwrap_or, map};
ghost use Rattle.std.specs.List.{flat_map};
ghost use Rattle.safl_word.specs.Numerals.{value};
ghost use Rattle.safl_word.specs.Limits.{width_max};
ghost use Rattle.safl_net.specs.Widths.{op_width};
ghost use Rattle.safl_verilog.specs.declared.fault.VRule.TheVariants as rules;
ghost use Rattle.safl_verilog.specs.Faults.{at, is_signal, number_faults, expression_number_faults, unfit_faults, operation, operands, expression_width};
ghost use Rattle.safl_vparse.specs.Shown.{shown_spot, shown_expression};
ghost use Rattle.safl_vread.specs.Drivers.{Chosen, AreAt, places_of, Judges, bits_between, HasNoWidth};
ghost use Rattle.safl_vread.specs.Scopes.{declared_in, spot_in, expression_in};

use crate::driver::Operands;
use crate::scope::{Item, Scope};
use crate::spans::{bytes_of, fault_at};
use safl_net::{Op, op_width};
use safl_verilog::{VFault, VRule};
use safl_vparse::numbers::{bounded, literal};
use safl_vparse::{Expression, Span};
use safl_word::limits::WIDTH_MAX;
use safl_word::{Primitive, Raw};

/// The signal of a name. V04 if there is none.
pub fn signal(scope: &Scope, name: Span) -> Result<Item, VFault>
    ensures { Chosen (declared_in scope.now) (spot_in scope.now name) is_signal (at rules.V04 name.start) result }
{
    match scope.find(bytes_of(scope.text, name)) {
        None => Err(fault_at(VRule::V04, name.start)),
        Some(item) => {
            if item.signal {
                Ok(item)
            } else {
                Err(fault_at(VRule::V04, name.start))
            }
        }
    }
}

/// The places of the signals that an expression names. V04 at the first name that is no signal.
pub fn operands_of(scope: &Scope, e: &Expression) -> Result<Operands, VFault>
    ensures faults { Judges (flat_map (unfit_faults (declared_in scope.now)) (operands (expression_in scope.now e.now))) result }
    ensures places { IfOk result (λ xs. AreAt (declared_in scope.now) (places_of xs) (operands (expression_in scope.now e.now))) }
{
    match e {
        Expression::Literal(_) => Ok(Operands::None),
        Expression::Plain(a) => one_operand(scope, *a),
        Expression::Inverted(a) => one_operand(scope, *a),
        Expression::Binary(_, a, b) => two_operands(scope, *a, *b),
        Expression::Choice(a, b, c) => three_operands(scope, *a, *b, *c),
        Expression::Joined(a, b) => two_operands(scope, *a, *b),
        Expression::Slice(a, _, _) => one_operand(scope, *a),
    }
}

fn one_operand(scope: &Scope, a: Span) -> Result<Operands, VFault>
    ensures faults { Judges (flat_map (unfit_faults (declared_in scope.now)) (spot_in scope.now a ∷ [])) result }
    ensures places { IfOk result (λ xs. AreAt (declared_in scope.now) (places_of xs) (spot_in scope.now a ∷ [])) }
{
    let a = signal(scope, a)?;
    Ok(Operands::One(a.place))
}

fn two_operands(scope: &Scope, a: Span, b: Span) -> Result<Operands, VFault>
    ensures faults { Judges (flat_map (unfit_faults (declared_in scope.now)) (spot_in scope.now a ∷ spot_in scope.now b ∷ [])) result }
    ensures places { IfOk result (λ xs. AreAt (declared_in scope.now) (places_of xs) (spot_in scope.now a ∷ spot_in scope.now b ∷ [])) }
{
    let a = signal(scope, a)?;
    let b = signal(scope, b)?;
    Ok(Operands::Two(a.place, b.place))
}

fn three_operands(scope: &Scope, a: Span, b: Span, c: Span) -> Result<Operands, VFault>
    ensures faults { Judges (flat_map (unfit_faults (declared_in scope.now)) (spot_in scope.now a ∷ spot_in scope.now b ∷ spot_in scope.now c ∷ [])) result }
    ensures places { IfOk result (λ xs. AreAt (declared_in scope.now) (places_of xs) (spot_in scope.now a ∷ spot_in scope.now b ∷ spot_in scope.now c ∷ [])) }
{
    let a = signal(scope, a)?;
    let b = signal(scope, b)?;
    let c = signal(scope, c)?;
    Ok(Operands::Three(a.place, b.place, c.place))
}

/// The operation of an expression whose numbers keep their rules. None only if a slice has a bit above the greatest
/// width.
pub fn operation_of(text: &[u8], e: &Expression) -> Option<Op>
    requires { expression_number_faults (shown_expression text.now e.now) ≡ [] }
    ensures some { IfSome result (λ op. op ≡ operation (shown_expression text.now e.now)) }
    ensures none { IfNone result (HasNoWidth (operation (shown_expression text.now e.now))) }
{
    match e {
        Expression::Literal(l) => match literal(bytes_of(text, *l)) {
            Some(word) => Some(Op::Const(word)),
            None => unreachable!(),
        },
        Expression::Plain(_) => Some(Op::Copy),
        Expression::Inverted(_) => Some(Op::Apply(Primitive::Not)),
        Expression::Binary(p, _, _) => Some(Op::Apply(*p)),
        Expression::Choice(_, _, _) => Some(Op::Mux),
        Expression::Joined(_, _) => Some(Op::Apply(Primitive::Cat)),
        Expression::Slice(_, high, low) => slice_of(text, *high, *low),
    }
}

fn slice_of(text: &[u8], high: Span, low: Span) -> Option<Op>
    requires high { number_faults (shown_spot text.now high) ≡ [] }
    requires low { number_faults (shown_spot text.now low) ≡ [] }
    ensures some { IfSome result (λ op. op ≡ bits_between (shown_spot text.now high) (shown_spot text.now low)) }
    ensures none { IfNone result (HasNoWidth (bits_between (shown_spot text.now high) (shown_spot text.now low))) }
{
    match (index_of(text, high), index_of(text, low)) {
        (Some(high), Some(low)) => Some(Op::Apply(Primitive::Bits(high, low))),
        _ => None,
    }
}

// The value of a number that is below 128.
fn index_of(text: &[u8], number: Span) -> Option<u8>
    requires { number_faults (shown_spot text.now number) ≡ [] }
    ensures some { IfSome result (λ n. n ≡ value 10 (shown_spot text.now number).bytes) }
    ensures none { IfNone result (width_max ≤ value 10 (shown_spot text.now number).bytes) }
{
    match bounded(10, bytes_of(text, number)) {
        Some(n) if n < Raw::from(WIDTH_MAX) => Some(n as u8),
        Some(_) => None,
        None => unreachable!(),
    }
}

// The width in bits of an operation on the signals at these places, or 0 if they do not fit.
fn width_of(scope: &Scope, op: Op, operands: Operands) -> u8
    requires { All (λ p. p < length scope.now.declarations.now) (places_of operands) }
    ensures { result ≡ unwrap_or (op_width op (map (λ p. slice_index scope.now.widths.items p) (places_of operands))) 0 }
{
    match operands {
        Operands::None => op_width(op, &[]).unwrap_or(0),
        Operands::One(a) => op_width(op, &[scope.width_at(a)]).unwrap_or(0),
        Operands::Two(a, b) => {
            op_width(op, &[scope.width_at(a), scope.width_at(b)]).unwrap_or(0)
        }
        Operands::Three(a, b, c) => {
            let widths = [scope.width_at(a), scope.width_at(b), scope.width_at(c)];
            op_width(op, &widths).unwrap_or(0)
        }
    }
}

/// The width in bits of an expression with this operation, on the signals at these places, or 0 if they do not fit.
pub fn expression_width(scope: &Scope, e: &Expression, op: Option<Op>, places: Operands) -> u8
    requires places { AreAt (declared_in scope.now) (places_of places) (operands (expression_in scope.now e.now)) }
    requires some { IfSome op (λ op. op ≡ operation (expression_in scope.now e.now)) }
    requires none { IfNone op (HasNoWidth (operation (expression_in scope.now e.now))) }
    ensures width { result ≡ expression_width (declared_in scope.now) (expression_in scope.now e.now) }
    ensures zero { op ≡ None → result ≡ 0 }
{
    match op {
        Some(op) => width_of(scope, op, places),
        None => 0,
    }
}
