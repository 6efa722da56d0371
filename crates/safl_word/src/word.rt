//! Words of 1 to 128 bits.

ghost use Rattle.std.specs.Prelude.{◌≡◌, ◌^◌, ◌-◌, ◌≤◌};
ghost use Rattle.safl_word.specs.Limits.{width_max};

use crate::limits::WIDTH_MAX;
use std::marker::Model;

/// The number that a word has.
pub type Raw = u128;

// 2^64.
const RADIX: Raw = 0x1_0000_0000_0000_0000;

/// A word: its width, from 1 to `WIDTH_MAX`, and a number below 2 to that width. The number is held in two halves,
/// since a number of 128 bits would have to be aligned to 16 bytes, and so would everything that holds a word. The width
/// takes 64 bits, so that no bytes of a word are unused: with such bytes a copy of a word takes far longer.
#[derive(Clone, Copy, Debug, PartialEq, Eq)]
pub struct Word {
    width: u64,
    low: u64,
    high: u64,
}

impl Model for Word {
    ghost use Rattle.std.specs.Prelude.{◌+◌, ◌*◌, ◌/◌, ◌%◌, ◌<◌, ◌^◌};
    ghost use Rattle.safl_word.specs.Words.{Word, IsWord};

    ghost Value = { Word };

    ghost view = { λ w. record { width = w.width; bits = w.low + w.high * 2 ^ 64 } };

    ghost invariant = { λ w. IsWord (record { width = w.width; bits = w.low + w.high * 2 ^ 64 }) × (w.low < 2 ^ 64) };

    ghost inverse = { λ v. record { width = v.width; low = v.bits % 2 ^ 64; high = v.bits / 2 ^ 64 } };
}

impl Word {
    ghost use Rattle.std.specs.Prelude.{◌≡◌, ◌↔◌, ◌^◌, ◌%◌, ◌≤◌, IsSome, IfSome};
    ghost use Rattle.safl_word.specs.Words.{IsWord};
    ghost use Rattle.safl_word.specs.Limits.{width_max};

    /// The word with this width and number. None if there is no such word.
    pub fn new(width: u8, bits: Raw) -> Option<Word>
        ensures some { IsSome result ↔ IsWord (record { width = width; bits = bits }) }
        ensures value { IfSome result (λ w. w ≡ record { width = width; bits = bits }) }
    {
        if width == 0 || width > WIDTH_MAX {
            return None;
        }
        if width < WIDTH_MAX && bits >> width != 0 {
            return None;
        }
        Some(Word::from_parts(width, bits))
    }

    /// The width in bits.
    pub fn width(&self) -> u8
        ensures value { result ≡ self.now.width }
        ensures word { IsWord self.now }
    {
        self.width as u8
    }

    /// The number of the word.
    pub fn bits(&self) -> Raw
        ensures value { result ≡ self.now.bits }
        ensures word { IsWord self.now }
    {
        Raw::from(self.high) * RADIX + Raw::from(self.low)
    }

    /// The word with this width and number. The number has to fit the width.
    pub fn from_parts(width: u8, bits: Raw) -> Word
        requires { IsWord (record { width = width; bits = bits }) }
        ensures { result ≡ record { width = width; bits = bits } }
    {
        Word {
            width: u64::from(width),
            low: (bits % RADIX) as u64,
            high: (bits / RADIX) as u64,
        }
    }

    /// The word of this width, from 1 to `WIDTH_MAX`, whose number is the remainder of `number` modulo 2 to the width.
    pub fn from_low_bits(width: u8, number: Raw) -> Word
        requires some { 1 ≤ width }
        requires bounded { width ≤ width_max }
        ensures { result ≡ record { width = width; bits = number % 2 ^ width } }
    {
        Word::from_parts(width, number & greatest(width))
    }
}

/// The greatest number of a width from 1 to `WIDTH_MAX`: all its bits are 1.
pub fn greatest(width: u8) -> Raw
    requires some { 1 ≤ width }
    requires bounded { width ≤ width_max }
    ensures { result ≡ 2 ^ width - 1 }
{
    Raw::MAX >> (WIDTH_MAX - width)
}
