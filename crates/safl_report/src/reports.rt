//! Whole reports.

ghost use Rattle.std.specs.Prelude.{IfOk};
ghost use Rattle.safl_report.specs.Report.{IsReport, IsSummary};

use crate::calls::count_calls;
use crate::line::{push_end, push_number, push_registers};
use crate::lines::{count_arbiters, push_functions, push_sites};
use crate::registers::count_registers;
use safl_net::Net;
use safl_sites::Planned;
use safl_word::NoMemory;
use std::alloc::Global;

/// The report of a program. It has a line for each function, with how many sites call it and whether its unit has an
/// arbiter; a line for each site, with whether it keeps its word; and the numbers of registers and of their bits. Fails
/// only if out of memory.
pub fn report(alloc: Global, p: &Planned, n: &Net) -> Result<Vec<u8>, NoMemory>
    ensures { IfOk result (λ text. IsReport p.now.checked.program p.now.checked.names n.now text.items) }
{
    let calls = count_calls(alloc, p)?;
    let total = count_registers(n);
    let mut out = Vec::new(alloc);
    push_functions(&mut out, p, &calls)?;
    push_sites(&mut out, p)?;
    push_registers(&mut out, total.count, total.bits)?;
    Ok(out)
}

/// The summary of a program: a line with the number of functions whose unit has an arbiter, and one with the numbers of
/// registers and of their bits. Fails only if out of memory.
pub fn summary(alloc: Global, p: &Planned, n: &Net) -> Result<Vec<u8>, NoMemory>
    ensures { IfOk result (λ text. IsSummary p.now.checked.program n.now text.items) }
{
    let total = count_registers(n);
    let mut out = Vec::new(alloc);
    push_number(&mut out, "arbiters ", u64::from(count_arbiters(p)))?;
    push_end(&mut out)?;
    push_registers(&mut out, total.count, total.bits)?;
    Ok(out)
}
