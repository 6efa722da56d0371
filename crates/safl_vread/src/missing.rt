//! The rule that each wire and output is assigned, and each register updated.

ghost use Rattle.std.specs.Prelude.{◌≡◌, List, length};
ghost use Rattle.std.specs.List.{flat_map};
ghost use Rattle.safl_verilog.specs.Files.{Statement as Stated};
ghost use Rattle.safl_verilog.specs.Faults.{missing_faults};
ghost use Rattle.safl_vread.specs.Firsts.{first};
ghost use Rattle.safl_vread.specs.Drivers.{HasDrivers, open_faults};
ghost use Rattle.safl_vread.specs.Scopes.{declared_in};

use crate::driver::Driver;
use crate::scope::Scope;
use crate::spans::fault_at;
use safl_verilog::{Sort, VFault, VRule};
use safl_vparse::Declaration;

/// V07 or V08 at the first declared name that no statement drives. `drivers` says what drives each name after all
/// statements.
pub fn missing_fault(scope: &Scope, drivers: &[Driver]) -> Option<VFault>
    requires { length drivers.now ≡ length scope.now.declarations.now }
    ensures { (ss : List Stated) → HasDrivers (declared_in scope.now) ss drivers.now → result ≡ first (flat_map (missing_faults ss) (declared_in scope.now)) }
{
    for (i, d) in scope.declarations.iter().enumerate() {
        let fault = open_fault(d, &drivers[i]);
        if fault.is_some() {
            return fault;
        }
    }
    None
}

fn open_fault(d: &Declaration, driver: &Driver) -> Option<VFault>
    ensures { result ≡ first (open_faults d.now.sort d.now.name.start driver.now) }
{
    match driver {
        Driver::Open => match d.sort {
            Sort::Input => None,
            Sort::Output | Sort::Wire => Some(fault_at(VRule::V07, d.name.start)),
            Sort::Reg => Some(fault_at(VRule::V08, d.name.start)),
        },
        Driver::Cell(_, _) | Driver::Next(_, _) => None,
    }
}
