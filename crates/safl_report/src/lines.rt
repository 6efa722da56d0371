//! The lines of a report for all functions and for all sites.

ghost use Rattle.std.specs.Prelude.{◌≡◌, ◌++◌, OnOk};
ghost use Rattle.safl_sites.specs.Plan.{IsPlan};
ghost use Rattle.safl_report.specs.Counting.{AreCalls};
ghost use Rattle.safl_report.specs.Report.{function_lines, site_report, arbiters_of};

use crate::line::{push_function, push_site};
use safl_sites::Planned;
use safl_word::NoMemory;

/// Appends a line for each function. `calls` has for each how many sites call it.
pub fn push_functions(out: &mut Vec<u8>, p: &Planned, calls: &[u32]) -> Result<(), NoMemory>
    requires { AreCalls p.now.program p.now.program.sites calls.now }
    ensures lines { OnOk result (out.new.items ≡ out.old.items ++ function_lines p.now.checked.program p.now.checked.names p.now.arbiter) }
    ensures plan { IsPlan p.now.program p.now.arbiter p.now.kept }
{
    let c = p.checked();
    for f in 0..c.functions() {
        push_function(out, c.name(f), calls[f as usize], p.arbiter(f))?;
    }
    Ok(())
}

/// Appends a line for each site.
pub fn push_sites(out: &mut Vec<u8>, p: &Planned) -> Result<(), NoMemory>
    ensures { OnOk result (out.new.items ≡ out.old.items ++ site_report p.now.checked.program p.now.checked.names p.now.kept) }
{
    let c = p.checked();
    for done in 0..c.sites() {
        let k = done + 1;
        let callee = c.name(c.callee(k));
        let caller = c.name(c.caller(k));
        push_site(out, k, callee, caller, p.kept(k))?;
    }
    Ok(())
}

/// The number of functions whose unit has an arbiter.
pub fn count_arbiters(p: &Planned) -> u32
    ensures count { result ≡ arbiters_of p.now.program p.now.arbiter }
    ensures plan { IsPlan p.now.program p.now.arbiter p.now.kept }
{
    let mut count = 0;
    for f in 0..p.checked().functions() {
        count += u32::from(p.arbiter(f));
    }
    count
}
