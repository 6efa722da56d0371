//! The rules on statements. Each statement drives the name that is its target.

ghost use Rattle.std.specs.Prelude.{◌≡◌, ℕ, List, [], ◌<◌, ◌&&◌, ◌||◌, not, length, true, IfOk};
ghost use Rattle.std.specs.List.{flat_map};
ghost use Rattle.safl_verilog.specs.Files.{Assign, Always};
ghost use Rattle.safl_verilog.specs.declared.fault.VRule.TheVariants as rules;
ghost use Rattle.safl_verilog.specs.Faults.{at, is_target, is_reg, is_wire, is_output, is_plain, stated_number_faults, literal_faults, expression_number_faults, all_statement_faults};
ghost use Rattle.safl_vparse.specs.Shown.{shown_expression};
ghost use Rattle.safl_vread.specs.Firsts.{Answers};
ghost use Rattle.safl_vread.specs.Drivers.{Chosen, is_open, HasDrivers, always_at, StepsFrom, NamesFrom};
ghost use Rattle.safl_vread.specs.Scopes.{declared_in, spot_in, expression_in, statement_in, statements_in};

use crate::driver::Driver;
use crate::expressions::{expression_width, operands_of, operation_of, signal};
use crate::scope::{Item, Scope};
use crate::spans::{bytes_of, fault_at, is_clock, is_reset, same_bytes};
use safl_verilog::{Sort, VFault, VRule};
use safl_vparse::numbers::literal;
use safl_vparse::{Expression, Span, Statement, Update, VErr};
use std::alloc::Global;

/// What drives each declared name after these statements, or their first fault. Their numbers have to keep the rules on
/// numbers.
pub fn drivers_of(
    alloc: Global,
    scope: &Scope,
    statements: &[Statement],
) -> Result<Vec<Driver>, VErr>
    requires { flat_map stated_number_faults (statements_in scope.now statements.now) ≡ [] }
    ensures faults { Answers (all_statement_faults (declared_in scope.now) [] (statements_in scope.now statements.now)) result }
    ensures drivers { IfOk result (λ v. HasDrivers (declared_in scope.now) (statements_in scope.now statements.now) v.items) }
{
    let mut drivers = vec![in alloc; Driver::Open; scope.declarations.len()]?;
    for s in statements {
        match driver_of(scope, &drivers, s) {
            Ok((place, driver)) => drivers[place] = driver,
            Err(fault) => return Err(VErr::Refused(fault)),
        }
    }
    Ok(drivers)
}

// The place of the name that a statement drives, and what drives it, or the statement's first fault.
fn driver_of(
    scope: &Scope,
    drivers: &[Driver],
    statement: &Statement,
) -> Result<(usize, Driver), VFault>
    requires full { length drivers.now ≡ length scope.now.declarations.now }
    requires numbers { stated_number_faults (statement_in scope.now statement.now) ≡ [] }
    ensures steps { StepsFrom scope.now drivers.now (statement_in scope.now statement.now) result }
    ensures within { IfOk result (λ r. r.0 < length drivers.now) }
{
    match statement {
        Statement::Assign(target, value) => assignment(scope, drivers, *target, value),
        Statement::Always(update) => update_of(scope, drivers, update),
    }
}

// The place of the name that an assignment drives, and what drives it, or the assignment's first fault.
fn assignment(
    scope: &Scope,
    drivers: &[Driver],
    target: Span,
    value: &Expression,
) -> Result<(usize, Driver), VFault>
    requires full { length drivers.now ≡ length scope.now.declarations.now }
    requires numbers { expression_number_faults (expression_in scope.now value.now) ≡ [] }
    ensures steps { StepsFrom scope.now drivers.now (Assign (spot_in scope.now target) (expression_in scope.now value.now)) result }
    ensures within { IfOk result (λ r. r.0 < length drivers.now) }
{
    let item = assigned_name(scope, target)?;
    if !may_be_assigned(&drivers[item.place], item.sort, value) {
        return Err(fault_at(VRule::V07, target.start));
    }
    let operands = operands_of(scope, value)?;
    let op = operation_of(scope.text, value);
    let width = expression_width(scope, value, op, operands);
    if width != item.width {
        return Err(width_fault(target.start, item.width, width));
    }
    match &op {
        Some(op) => Ok((item.place, Driver::Cell(*op, operands))),
        None => unreachable!(),
    }
}

// The declaration of a wire or an output by its name. V04 if there is none.
fn assigned_name(scope: &Scope, name: Span) -> Result<Item, VFault>
    ensures { Chosen (declared_in scope.now) (spot_in scope.now name) is_target (at rules.V04 name.start) result }
{
    match scope.find(bytes_of(scope.text, name)) {
        None => Err(fault_at(VRule::V04, name.start)),
        Some(item) => {
            if is_target(item.sort) {
                Ok(item)
            } else {
                Err(fault_at(VRule::V04, name.start))
            }
        }
    }
}

fn is_target(sort: Sort) -> bool
    ensures { result ≡ (is_wire sort || is_output sort) }
{
    match sort {
        Sort::Wire | Sort::Output => true,
        Sort::Input | Sort::Reg => false,
    }
}

// Whether a name may be assigned this value: it was not assigned before, and an output is assigned nothing but a name.
fn may_be_assigned(driver: &Driver, sort: Sort, value: &Expression) -> bool
    ensures { (text : List ℕ) → result ≡ (is_open driver.now && (not (is_output sort) || is_plain (shown_expression text value.now))) }
{
    let shown = match value {
        Expression::Plain(_) => true,
        _ => match sort {
            Sort::Output => false,
            Sort::Input | Sort::Reg | Sort::Wire => true,
        },
    };
    is_open(driver) & shown
}

fn is_open(driver: &Driver) -> bool
    ensures { result ≡ is_open driver.now }
{
    match driver {
        Driver::Open => true,
        Driver::Cell(_, _) | Driver::Next(_, _) => false,
    }
}

fn width_fault(place: u32, wanted: u8, found: u8) -> VFault
    ensures { result ≡ record { rule = rules.V05; place = place; first = wanted; second = found } }
{
    VFault::with(VRule::V05, place, wanted as u32, found as u32)
}

// The place of the register that an update drives, and what drives it, or the update's first fault.
fn update_of(scope: &Scope, drivers: &[Driver], update: &Update) -> Result<(usize, Driver), VFault>
    requires full { length drivers.now ≡ length scope.now.declarations.now }
    requires numbers { literal_faults (spot_in scope.now update.now.initial) ≡ [] }
    ensures steps { StepsFrom scope.now drivers.now (always_at scope.now.text.now update.now) result }
    ensures within { IfOk result (λ r. r.0 < length drivers.now) }
{
    let item = updated_name(scope, drivers, update)?;
    let source = signal(scope, update.source)?;
    match literal(bytes_of(scope.text, update.initial)) {
        Some(initial) => {
            if initial.width() != item.width {
                return Err(width_fault(update.initial.start, item.width, initial.width()));
            }
            if source.width != item.width {
                return Err(width_fault(update.source.start, item.width, source.width));
            }
            Ok((item.place, Driver::Next(initial, source.place)))
        }
        None => unreachable!(),
    }
}

// The declaration of the register that is updated. V08 if it may not be updated so.
fn updated_name(scope: &Scope, drivers: &[Driver], update: &Update) -> Result<Item, VFault>
    requires full { length drivers.now ≡ length scope.now.declarations.now }
    ensures names { NamesFrom scope.now drivers.now update.now result }
    ensures within { IfOk result (λ item. item.place < length drivers.now) }
{
    if !is_clock(bytes_of(scope.text, update.clock)) {
        return Err(fault_at(VRule::V08, update.clock.start));
    }
    if !is_reset(bytes_of(scope.text, update.reset)) {
        return Err(fault_at(VRule::V08, update.reset.start));
    }
    let item = register(scope, update.target)?;
    if !same_bytes(
        bytes_of(scope.text, update.second),
        bytes_of(scope.text, update.target),
    ) {
        return Err(fault_at(VRule::V08, update.second.start));
    }
    if is_open(&drivers[item.place]) {
        Ok(item)
    } else {
        Err(fault_at(VRule::V08, update.target.start))
    }
}

// The declaration of a register by its name. V08 if there is none.
fn register(scope: &Scope, name: Span) -> Result<Item, VFault>
    ensures { Chosen (declared_in scope.now) (spot_in scope.now name) (λ d. is_reg d.sort) (at rules.V08 name.start) result }
{
    match scope.find(bytes_of(scope.text, name)) {
        None => Err(fault_at(VRule::V08, name.start)),
        Some(item) => {
            if is_register(item.sort) {
                Ok(item)
            } else {
                Err(fault_at(VRule::V08, name.start))
            }
        }
    }
}

fn is_register(sort: Sort) -> bool
    ensures { result ≡ is_reg sort }
{
    match sort {
        Sort::Reg => true,
        Sort::Input | Sort::Output | Sort::Wire => false,
    }
}
