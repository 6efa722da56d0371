//! Sets of numbers below a bound, which can find the number at a place in their order.

use crate::places::{SPAN, find};
use std::alloc::{AllocError, Global};
use std::marker::Model;

/// A set of numbers: 1 for each number that is in it, and 0 for the others. Beside these are their sums over blocks of
/// 32, the sums of these over 32 blocks, and the sum of all. So a number is found by its place in few steps.
#[derive(Drop)]
pub struct NumberSet {
    ones: Vec<u32>,
    blocks: Vec<u32>,
    tops: Vec<u32>,
    total: u32,
}

impl Model for NumberSet {
    ghost use Rattle.std.specs.Prelude.{List, ℕ};
    ghost use Rattle.safl_number_set.specs.Numbers.{IsCounted};

    ghost Value = { List ℕ };

    ghost view = { λ s. s.ones.items };

    ghost invariant = { λ s. IsCounted s.ones.items s.blocks.items s.tops.items s.total };
}

impl NumberSet {
    ghost use Rattle.std.specs.Prelude.{◌≡◌, ℕ, ◌<◌, ◌≤◌, length, IfOk, replicate, sum, take, slice_set, slice_index};
    ghost use Rattle.std.specs.Int.{from_bool};

    /// The empty set of numbers below a bound.
    pub fn new(alloc: Global, bound: usize) -> Result<NumberSet, AllocError>
        requires { bound ≤ 5000 }
        ensures { IfOk result (λ s. s ≡ replicate bound 0) }
    {
        let count = bound / SPAN + 1;
        let ones = vec![in alloc; 0; bound]?;
        let blocks = vec![in alloc; 0; count]?;
        let tops = vec![in alloc; 0; count / SPAN + 1]?;
        Ok(NumberSet {
            ones,
            blocks,
            tops,
            total: 0,
        })
    }

    /// How many numbers are in the set.
    pub fn len(&self) -> u32
        ensures count { result ≡ sum self.now }
        ensures few { result ≤ 5000 }
    {
        self.total
    }

    /// Puts a number into the set, or takes it out.
    pub fn put(&mut self, k: u32, within: bool)
        requires { k < length self.old }
        ensures { self.new ≡ slice_set self.old k (from_bool within) }
    {
        if within {
            self.insert(k);
        } else {
            self.remove(k);
        }
    }

    /// Puts a number into the set.
    pub fn insert(&mut self, k: u32)
        requires { k < length self.old }
        ensures { self.new ≡ slice_set self.old k 1 }
    {
        let k = k as usize;
        if self.ones[k] == 1 {
            return;
        }
        self.ones[k] = 1;
        self.blocks[k / SPAN] += 1;
        self.tops[k / SPAN / SPAN] += 1;
        self.total += 1;
    }

    /// Takes a number out of the set.
    pub fn remove(&mut self, k: u32)
        requires { k < length self.old }
        ensures { self.new ≡ slice_set self.old k 0 }
    {
        let k = k as usize;
        if self.ones[k] == 0 {
            return;
        }
        self.ones[k] = 0;
        self.blocks[k / SPAN] -= 1;
        self.tops[k / SPAN / SPAN] -= 1;
        self.total -= 1;
    }

    /// The number at a place in the set, in rising order.
    pub fn nth(&self, place: u32) -> u32
        requires { place < sum self.now }
        ensures within { slice_index self.now result ≡ 1 }
        ensures below { place ≡ sum (take result self.now) }
    {
        let top = find(&self.tops, 0, 0, place);
        let block = find(&self.blocks, top.at * SPAN, top.before, place);
        find(&self.ones, block.at * SPAN, block.before, place).at as u32
    }
}
