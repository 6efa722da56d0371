//! The rule on ports.
//!
//! The header lists exactly the declared inputs and outputs, and among them are the ports that each file has.

ghost use Rattle.std.specs.Prelude.{◌≡◌, ◌==◌, ◌&&◌, ◌||◌, not, List};
ghost use Rattle.std.specs.List.{flat_map};
ghost use Rattle.safl_verilog.specs.Files.{Spot};
ghost use Rattle.safl_verilog.specs.Faults.{among, find, passes, is_input, is_output, is_port, range_width, has_ports, all_port_faults};
ghost use Rattle.safl_verilog.specs.FaultParts.{header_faults, port_faults};
ghost use Rattle.safl_vparse.specs.Shown.{shown_spot};
ghost use Rattle.safl_vread.specs.Firsts.{first};
ghost use Rattle.safl_vread.specs.Lists.{bytes_of_all};
ghost use Rattle.safl_vread.specs.Scopes.{declared_in, spots_in, file_in};

use crate::names::Names;
use crate::scope::Scope;
use crate::spans::{bytes_of, fault_at};
use safl_verilog::{Sort, VFault, VRule};
use safl_vparse::{Declaration, Span};

/// The first fault by rule V10. `listed` has the names of the header.
pub fn port_fault(scope: &Scope, header: &[Span], listed: &Names) -> Option<VFault>
    requires { listed.now ≡ bytes_of_all (spots_in scope.now header.now) }
    ensures { result ≡ first (all_port_faults (file_in scope.now header.now)) }
{
    let undeclared = undeclared_fault(scope, header);
    if undeclared.is_some() {
        return undeclared;
    }
    let unlisted = unlisted_fault(scope, header, listed);
    if unlisted.is_some() {
        return unlisted;
    }
    if has_ports(scope) {
        None
    } else {
        Some(fault_at(VRule::V10, 0))
    }
}

// V10 at the first name of the header that is not declared as a port.
fn undeclared_fault(scope: &Scope, header: &[Span]) -> Option<VFault>
    ensures { result ≡ first (flat_map (header_faults (file_in scope.now header.now)) (spots_in scope.now header.now)) }
{
    for x in header {
        if !is_port_name(scope, bytes_of(scope.text, *x)) {
            return Some(fault_at(VRule::V10, x.start));
        }
    }
    None
}

// V10 at the first declared port that the header does not list.
fn unlisted_fault(scope: &Scope, header: &[Span], listed: &Names) -> Option<VFault>
    requires { listed.now ≡ bytes_of_all (spots_in scope.now header.now) }
    ensures { result ≡ first (flat_map (port_faults (file_in scope.now header.now)) (declared_in scope.now)) }
{
    for d in scope.declarations {
        if !is_listed(scope.text, d, listed) {
            return Some(fault_at(VRule::V10, d.name.start));
        }
    }
    None
}

fn is_listed(text: &[u8], d: &Declaration, listed: &Names) -> bool
    ensures { (hs : List Spot) → listed.now ≡ bytes_of_all hs → result ≡ (not (is_port d.now.sort) || among hs (shown_spot text.now d.now.name).bytes) }
{
    !is_port(d.sort) || listed.has(bytes_of(text, d.name))
}

// Whether `clk`, `rst` and `start` are inputs of width 1, `done` is an output of width 1, and `result` is an output.
fn has_ports(scope: &Scope) -> bool
    ensures { result ≡ has_ports (declared_in scope.now) }
{
    is_input_bit(scope, b"clk")
        && is_input_bit(scope, b"rst")
        && is_input_bit(scope, b"start")
        && is_output_bit(scope, b"done")
        && is_output_name(scope, b"result")
}

fn is_port(sort: Sort) -> bool
    ensures { result ≡ is_port sort }
{
    match sort {
        Sort::Input | Sort::Output => true,
        Sort::Reg | Sort::Wire => false,
    }
}

fn is_input(sort: Sort) -> bool
    ensures { result ≡ is_input sort }
{
    match sort {
        Sort::Input => true,
        Sort::Output | Sort::Reg | Sort::Wire => false,
    }
}

fn is_output(sort: Sort) -> bool
    ensures { result ≡ is_output sort }
{
    match sort {
        Sort::Output => true,
        Sort::Input | Sort::Reg | Sort::Wire => false,
    }
}

fn is_port_name(scope: &Scope, name: &[u8]) -> bool
    ensures { result ≡ passes (λ d. is_port d.sort) (find (declared_in scope.now) name.now) }
{
    match scope.find(name) {
        None => false,
        Some(item) => is_port(item.sort),
    }
}

fn is_input_bit(scope: &Scope, name: &[u8]) -> bool
    ensures { result ≡ passes (λ d. is_input d.sort && (range_width d.range == 1)) (find (declared_in scope.now) name.now) }
{
    match scope.find(name) {
        None => false,
        Some(item) => is_input(item.sort) & (item.width == 1),
    }
}

fn is_output_bit(scope: &Scope, name: &[u8]) -> bool
    ensures { result ≡ passes (λ d. is_output d.sort && (range_width d.range == 1)) (find (declared_in scope.now) name.now) }
{
    match scope.find(name) {
        None => false,
        Some(item) => is_output(item.sort) & (item.width == 1),
    }
}

fn is_output_name(scope: &Scope, name: &[u8]) -> bool
    ensures { result ≡ passes (λ d. is_output d.sort) (find (declared_in scope.now) name.now) }
{
    match scope.find(name) {
        None => false,
        Some(item) => is_output(item.sort),
    }
}
