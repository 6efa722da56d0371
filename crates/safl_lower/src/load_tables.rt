//! Tables of loads.

ghost use Rattle.std.specs.Prelude.{◌≡◌, ◌≢◌, ℕ, ◌<◌, Some, None, map, length, slice_get, IfOk};
ghost use Rattle.safl_lower.specs.declared.loads.Load.{Load as load};
ghost use Rattle.safl_lower.specs.Tables.{entry_in};

use crate::loads::Load;
use std::alloc::{AllocError, Global};

/// A table of `count` places without loads.
pub fn no_loads(alloc: Global, count: usize) -> Result<Vec<Option<Load>>, AllocError>
    ensures size { IfOk result (λ xs. length xs.items ≡ count) }
    ensures none { IfOk result (λ xs. (i : ℕ) → entry_in (slice_get xs.items i) ≡ None) }
{
    let mut loads = Vec::new(alloc);
    for _ in 0..count {
        loads.push(None)?;
    }
    Ok(loads)
}

/// The loads of a table that has one at every place.
pub fn all_loads(alloc: Global, table: Vec<Option<Load>>) -> Result<Vec<Load>, AllocError>
    requires { (i : ℕ) → i < length table.items → entry_in (slice_get table.items i) ≢ None }
    ensures { IfOk result (λ xs. map (λ (l : load). Some l) xs.items ≡ table.items) }
{
    let mut loads = Vec::new(alloc);
    for place in table {
        loads.push(place.unwrap())?;
    }
    Ok(loads)
}
