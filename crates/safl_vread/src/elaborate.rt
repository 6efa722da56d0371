//! Elaboration: what a file of the grammar declares, and what drives it.

ghost use Rattle.std.specs.Prelude.{◌≡◌, [], IfOk};
ghost use Rattle.std.specs.List.{flat_map};
ghost use Rattle.safl_verilog.specs.Faults.{faults, stated_number_faults, repeat_faults};
ghost use Rattle.safl_verilog.specs.FaultParts.{declared_number_faults, declared_names};
ghost use Rattle.safl_vparse.specs.Shown.{shown_declarations, shown_statements, shown_file};
ghost use Rattle.safl_vread.specs.Drivers.{HasDrivers};
ghost use Rattle.safl_vread.specs.Firsts.{Answers};
ghost use Rattle.safl_vread.specs.Lists.{bytes_of_all};
ghost use Rattle.safl_vread.specs.Parts.{parts_at, later_faults};
ghost use Rattle.safl_vread.specs.Scopes.{declared_in, spots_in, statements_in};

use crate::driver::Driver;
use crate::missing::missing_fault;
use crate::names::{Names, declared_names, header_names};
use crate::numbers::number_fault;
use crate::ports::port_fault;
use crate::scope::{Scope, widths_of};
use crate::statements::drivers_of;
use safl_vparse::{Declaration, File, Span, Statement, VErr};
use std::alloc::Global;

/// What a file declares, and what drives each declared name.
#[derive(Drop)]
pub struct Elaborated<'t> {
    pub scope: Scope<'t>,
    pub drivers: Vec<Driver>,
}

/// Elaborates a file of the grammar: what it declares, and what drives each declared name. If it breaks a rule, its
/// first fault.
pub fn elaborate<'t>(alloc: Global, text: &'t [u8], file: &'t File) -> Result<Elaborated<'t>, VErr>
    ensures faults { Answers (faults (shown_file text.now file.now)) result }
    ensures text { IfOk result (λ e. e.scope.text.now ≡ text.now) }
    ensures declarations { IfOk result (λ e. e.scope.declarations.now ≡ file.now.declarations.items) }
    ensures drivers { IfOk result (λ e. HasDrivers (shown_file text.now file.now).declarations (shown_file text.now file.now).statements e.drivers.items) }
{
    elaborate_parts(
        alloc,
        text,
        &file.header,
        &file.declarations,
        &file.statements,
    )
}

fn elaborate_parts<'t>(
    alloc: Global,
    text: &'t [u8],
    header: &[Span],
    declarations: &'t [Declaration],
    statements: &[Statement],
) -> Result<Elaborated<'t>, VErr>
    ensures faults { Answers (faults (parts_at text.now header.now declarations.now statements.now)) result }
    ensures text { IfOk result (λ e. e.scope.text.now ≡ text.now) }
    ensures declarations { IfOk result (λ e. e.scope.declarations.now ≡ declarations.now) }
    ensures drivers { IfOk result (λ e. HasDrivers (shown_declarations text.now declarations.now) (shown_statements text.now statements.now) e.drivers.items) }
{
    if let Some(fault) = number_fault(text, declarations, statements) {
        return Err(VErr::Refused(fault));
    }
    let listed = header_names(alloc, text, header)?;
    let scope = scope_of(alloc, text, declarations)?;
    let drivers = all_drivers(alloc, &scope, header, &listed, statements)?;
    Ok(Elaborated { scope, drivers })
}

// Checks all rules but those on numbers and on names that are declared twice. If they hold, gives what drives each
// declared name.
fn all_drivers(
    alloc: Global,
    scope: &Scope,
    header: &[Span],
    listed: &Names,
    statements: &[Statement],
) -> Result<Vec<Driver>, VErr>
    requires numbers { flat_map stated_number_faults (statements_in scope.now statements.now) ≡ [] }
    requires listed { listed.now ≡ bytes_of_all (spots_in scope.now header.now) }
    ensures faults { Answers (later_faults (parts_at scope.now.text.now header.now scope.now.declarations.now statements.now)) result }
    ensures drivers { IfOk result (λ v. HasDrivers (declared_in scope.now) (statements_in scope.now statements.now) v.items) }
{
    if let Some(fault) = port_fault(scope, header, listed) {
        return Err(VErr::Refused(fault));
    }
    let drivers = drivers_of(alloc, scope, statements)?;
    match missing_fault(scope, &drivers) {
        Some(fault) => Err(VErr::Refused(fault)),
        None => Ok(drivers),
    }
}

// What a file declares. V03 at the first name that is declared twice.
fn scope_of<'t>(
    alloc: Global,
    text: &'t [u8],
    declarations: &'t [Declaration],
) -> Result<Scope<'t>, VErr>
    requires { flat_map declared_number_faults (shown_declarations text.now declarations.now) ≡ [] }
    ensures faults { Answers (repeat_faults [] (declared_names (shown_declarations text.now declarations.now))) result }
    ensures text { IfOk result (λ scope. scope.text.now ≡ text.now) }
    ensures declarations { IfOk result (λ scope. scope.declarations.now ≡ declarations.now) }
{
    let names = declared_names(alloc, text, declarations)?;
    let widths = widths_of(alloc, text, declarations)?;
    Ok(Scope {
        text,
        declarations,
        names,
        widths,
    })
}
