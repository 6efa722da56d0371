//! The calls of a body, in the order of its sites.

ghost use Rattle.std.specs.Prelude.{ℕ, ◌+◌, ◌<◌, map, IfOk};
ghost use Rattle.safl_lower.specs.Entries.{site_of, Between};
ghost use Rattle.safl_lower.specs.Loads.{Apart, Listed, Placed, Spreads};

use crate::load_tables::{all_loads, no_loads};
use crate::loads::Load;
use crate::lowered::Want;
use std::alloc::{AllocError, Global};

/// The calls of the `count` sites from `first` on, each of which has one call.
pub fn spread(
    alloc: Global,
    first: u32,
    count: usize,
    calls: Vec<Want>,
) -> Result<Vec<Load>, AllocError>
    requires apart { Apart (map site_of calls.items) }
    requires within { Between first (first + count) (map site_of calls.items) }
    requires called { (i : ℕ) → i < count → Listed (first + i) (map site_of calls.items) }
    ensures { IfOk result (λ xs. Spreads first count calls.items xs.items) }
{
    let table = placed(alloc, first, count, calls)?;
    all_loads(alloc, table)
}

// A table with each call at the place of its site.
fn placed(
    alloc: Global,
    first: u32,
    count: usize,
    calls: Vec<Want>,
) -> Result<Vec<Option<Load>>, AllocError>
    requires apart { Apart (map site_of calls.items) }
    requires within { Between first (first + count) (map site_of calls.items) }
    ensures { IfOk result (λ xs. Placed first count calls.items xs.items) }
{
    let mut left = calls;
    let mut table = no_loads(alloc, count)?;
    'calls: while let Some(call) = left.pop() {
        let Want { site, want, args } = call;
        let place = (site - first) as usize;
        table[place] = Some(Load {
            bit: want,
            words: args,
        });
    }
    Ok(table)
}
