//! The order of signals: from the places of declarations to the numbers of signals.

ghost use Rattle.std.specs.Prelude.{◌≡◌, ◌<◌, ◌^◌, length, IfOk, OnOk};
ghost use Rattle.safl_vparse.specs.Shown.{shown_declaration};
ghost use Rattle.safl_vread.specs.Signals.{is_of, IsOrder, AreNumbers, AddsPlaces};
ghost use Rattle.safl_vread.specs.Scopes.{declared_in};

use crate::scope::Scope;
use crate::spans::{bytes_of, is_clock, is_reset};
use safl_verilog::Sort;
use safl_vparse::Declaration;
use std::alloc::{AllocError, Global};

/// The places of the declarations of signals, in the order of the signals' numbers: first inputs other than the clock
/// and the reset, then registers, then wires.
pub fn order_of(alloc: Global, scope: &Scope) -> Result<Vec<usize>, AllocError>
    ensures { IfOk result (λ order. IsOrder (declared_in scope.now) order.items) }
{
    let mut order = Vec::new(alloc);
    add_places(scope, Sort::Input, &mut order)?;
    add_places(scope, Sort::Reg, &mut order)?;
    add_places(scope, Sort::Wire, &mut order)?;
    Ok(order)
}

// Appends the places of the signals of one sort.
fn add_places(scope: &Scope, sort: Sort, order: &mut Vec<usize>) -> Result<(), AllocError>
    ensures { OnOk result (AddsPlaces (declared_in scope.now) sort order.old.items order.new.items) }
{
    for (i, d) in scope.declarations.iter().enumerate() {
        if is_of(scope.text, sort, d) {
            order.push(i)?;
        }
    }
    Ok(())
}

// Whether a declaration is that of a signal of this sort.
fn is_of(text: &[u8], sort: Sort, d: &Declaration) -> bool
    ensures { result ≡ is_of sort (shown_declaration text.now d.now) }
{
    let name = bytes_of(text, d.name);
    match (sort, d.sort) {
        (Sort::Input, Sort::Input) => !is_clock(name) && !is_reset(name),
        (Sort::Reg, Sort::Reg) | (Sort::Wire, Sort::Wire) => true,
        _ => false,
    }
}

/// For each declaration the number of its signal, if it declares one.
pub fn numbers_of(alloc: Global, scope: &Scope, order: &[usize]) -> Result<Vec<u32>, AllocError>
    requires order { IsOrder (declared_in scope.now) order.now }
    requires some { 0 < length order.now }
    requires few { length order.now < 2 ^ 32 }
    ensures { IfOk result (λ numbers. AreNumbers (declared_in scope.now) order.now numbers.items) }
{
    let mut numbers = vec![in alloc; 0u32; scope.declarations.len()]?;
    for (i, place) in order.iter().enumerate() {
        numbers[*place] = i as u32;
    }
    Ok(numbers)
}
