//! The sums over the blocks of a list of numbers.

ghost use Rattle.std.specs.Prelude.{◌≡◌, ◌+◌, ◌/◌, ◌<◌, ◌≤◌, ◌^◌, IfOk, cond, length, sum, replicate, get_or};
ghost use Rattle.safl_number_set.specs.Tallies.{AreSummed, Shifts, shift_of};

use crate::places::SPAN;
use std::alloc::{AllocError, Global};

/// The sums over blocks of 32 numbers, the sums of these over 32 blocks, and the sum of all.
#[derive(Drop)]
pub struct Tally {
    pub blocks: Vec<u32>,
    pub tops: Vec<u32>,
    pub total: u32,
}

/// The sums of `bound` zeros.
pub fn zero_tally(alloc: Global, bound: usize) -> Result<Tally, AllocError>
    requires { bound ≤ 5000 }
    ensures blocks { IfOk result (λ t. t.blocks.items ≡ replicate (bound / 32 + 1) 0) }
    ensures summed { IfOk result (λ t. AreSummed t) }
{
    let count = bound / SPAN + 1;
    let blocks = vec![in alloc; 0; count]?;
    let tops = vec![in alloc; 0; count / SPAN + 1]?;
    Ok(Tally {
        blocks,
        tops,
        total: 0,
    })
}

impl Tally {
    /// Adds `by` to the sum of a block, or subtracts it.
    pub fn shift(&mut self, block: usize, by: u32, more: bool)
        requires summed { AreSummed self.old }
        requires within { block < length self.old.blocks.items }
        requires few { sum self.old.blocks.items + by < 2 ^ 32 }
        requires enough { cond more 0 by ≤ get_or self.old.blocks.items block 0 }
        ensures { Shifts self.old block by more self.new }
    {
        self.blocks[block] = shifted(self.blocks[block], by, more);
        self.tops[block / SPAN] = shifted(self.tops[block / SPAN], by, more);
        self.total = shifted(self.total, by, more);
    }
}

/// A count with `by` added or subtracted.
pub fn shifted(count: u32, by: u32, more: bool) -> u32
    requires few { count + by < 2 ^ 32 }
    requires enough { cond more 0 by ≤ count }
    ensures { result ≡ shift_of count by more }
{
    if more { count + by } else { count - by }
}
