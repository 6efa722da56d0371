//! How many sites call each function.

ghost use Rattle.std.specs.Prelude.{IfOk};
ghost use Rattle.safl_report.specs.Counting.{AreCalls};

use safl_sites::Planned;
use std::alloc::{AllocError, Global};

/// For each function, how many sites call it.
pub fn count_calls(alloc: Global, p: &Planned) -> Result<Vec<u32>, AllocError>
    ensures { IfOk result (λ calls. AreCalls p.now.program p.now.program.sites calls.items) }
{
    let c = p.checked();
    let mut calls = vec![in alloc; 0; c.functions() as usize]?;
    for done in 0..c.sites() {
        let callee = c.callee(done + 1);
        calls[callee as usize] += 1;
    }
    Ok(calls)
}
