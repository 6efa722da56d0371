//! Tables of numbers, each in two halves of 64 bits.

ghost use Rattle.std.specs.Prelude.{◌≡◌, ◌+◌, ◌*◌, ◌^◌, IfOk};
ghost use Rattle.safl_word.specs.Halves.{low_half, high_half};

use crate::word::Raw;
use std::alloc::{AllocError, Global};
use std::marker::Model;

// 2^64.
const RADIX: Raw = 0x1_0000_0000_0000_0000;

/// A table of numbers below 2^128. The low halves of all numbers are in one list and the high halves in another. A
/// number that is known to be below 2^64 is read and written without its high half.
#[derive(Drop)]
pub struct Numbers {
    /// The number modulo 2^64 at each place.
    pub low: Vec<u64>,
    /// The number divided by 2^64 at each place.
    pub high: Vec<u64>,
}

impl Model for Numbers {
    ghost use Rattle.std.specs.Prelude.{◌≡◌, List, ℕ, length};
    ghost use Rattle.safl_word.specs.Halves.{joined_halves};

    ghost Value = { List ℕ };

    ghost view = { λ n. joined_halves n.low.items n.high.items };

    ghost invariant = { λ n. length n.low.items ≡ length n.high.items };
}

impl Numbers {
    ghost use Rattle.std.specs.Prelude.{◌≡◌, ◌<◌, ◌^◌, length, slice_index, slice_set, IfOk, true, false};

    /// A table of the numbers of a slice.
    pub fn new(alloc: Global, numbers: &[Raw]) -> Result<Numbers, AllocError>
        ensures { IfOk result (λ n. n ≡ numbers.now) }
    {
        let mut low = Vec::with_capacity(alloc, numbers.len())?;
        let mut high = Vec::with_capacity(alloc, numbers.len())?;
        'numbers: for number in numbers {
            low.push(low_half(*number))?;
            high.push(high_half(*number))?;
        }
        Ok(Numbers { low, high })
    }

    /// The number at a place.
    #[inline(always)]
    pub fn get(&self, i: usize) -> Raw
        requires { i < length self.now }
        ensures { result ≡ slice_index self.now i }
    {
        from_halves(self.low[i], self.high[i])
    }

    /// The number at a place. It has to be below 2^64.
    #[inline(always)]
    pub fn get_low(&self, i: usize) -> u64
        requires within { i < length self.now }
        requires low { slice_index self.now i < 2 ^ 64 }
        ensures { result ≡ slice_index self.now i }
    {
        self.low[i]
    }

    /// Whether there is such a place and its number is 1. The high half is read only if the low half is 1.
    #[inline(always)]
    pub fn is_one(&self, i: usize) -> bool
        ensures yes { result ≡ true → slice_index self.now i ≡ 1 }
        ensures no { result ≡ false → ¬ (slice_index self.now i ≡ 1) }
    {
        if i >= self.low.len() {
            return false;
        }
        if self.low[i] != 1 {
            return false;
        }
        if self.high[i] != 0 {
            return false;
        }
        true
    }

    /// Writes a number to a place.
    #[inline(always)]
    pub fn set(&mut self, i: usize, number: Raw)
        requires { i < length self.old }
        ensures { self.new ≡ slice_set self.old i number }
    {
        self.low[i] = low_half(number);
        self.high[i] = high_half(number);
    }

    /// Writes a number below 2^64 to a place. The number there has to be below 2^64 too.
    #[inline(always)]
    pub fn set_low(&mut self, i: usize, number: u64)
        requires within { i < length self.old }
        requires low { slice_index self.old i < 2 ^ 64 }
        ensures { self.new ≡ slice_set self.old i number }
    {
        self.low[i] = number;
    }
}

/// The number with these two halves.
#[inline(always)]
pub fn from_halves(low: u64, high: u64) -> Raw
    ensures { result ≡ low + high * 2 ^ 64 }
{
    Raw::from(high) * RADIX + Raw::from(low)
}

/// The low 64 bits of a number.
#[inline(always)]
pub fn low_half(number: Raw) -> u64
    ensures { result ≡ low_half number }
{
    (number % RADIX) as u64
}

/// The high 64 bits of a number.
#[inline(always)]
pub fn high_half(number: Raw) -> u64
    ensures { result ≡ high_half number }
{
    (number / RADIX) as u64
}
