//! The values of a command's arguments.
#![tactic(auto, using(crate::proofs::Values::values))]

ghost use Rattle.std.specs.Prelude.{◌≡◌, ◌≤◌, ◌↔◌, true, IfOk, IsSome, IfSome, Some, map, option_and_then, option_map, string_bytes, codes, bytes_eq};
ghost use Rattle.clap.specs.Words.{found_of, rows_of, first_of};
ghost use Rattle.safl_word.specs.Numerals.{value};
ghost use Rattle.safl_command.specs.Values.{name_in, filled, number_in, number_within, limit_in, count_in, has_flag, args_in, is_number, is_within};

use crate::command::{CYCLES_MAX, Count};
use clap::ArgMatches;
use safl_word::limits::GENERATED_MAX;
use safl_word::{NoMemory, decimal};
use std::alloc::Global;

/// The name that an argument gives. None if it gives none, or an empty one.
pub fn name_in(alloc: Global, values: &ArgMatches<'_>, id: &str) -> Result<Option<String>, NoMemory>
    ensures { IfOk result (λ name. option_map string_bytes name ≡ name_in id.now (rows_of (found_of values.now))) }
{
    match values.get_str(id) {
        Some(word) => filled(alloc, word),
        None => Ok(None),
    }
}

// The word, unless it is empty.
fn filled(alloc: Global, word: &str) -> Result<Option<String>, NoMemory>
    ensures { IfOk result (λ name. option_map string_bytes name ≡ filled word.now) }
{
    if word.is_empty() {
        return Ok(None);
    }
    let name = String::from_str(alloc, word)?;
    Ok(Some(name))
}

/// The word that an argument gives. It may be empty.
pub fn word_in(alloc: Global, values: &ArgMatches<'_>, id: &str) -> Result<Option<String>, NoMemory>
    ensures { IfOk result (λ word. option_map string_bytes word ≡ first_of id.now (rows_of (found_of values.now))) }
{
    match values.get_str(id) {
        Some(word) => copied(alloc, word),
        None => Ok(None),
    }
}

fn copied(alloc: Global, word: &str) -> Result<Option<String>, NoMemory>
    ensures { IfOk result (λ copy. option_map string_bytes copy ≡ Some word.now) }
{
    let copy = String::from_str(alloc, word)?;
    Ok(Some(copy))
}

/// The number that an argument gives.
pub fn number_in(values: &ArgMatches<'_>, id: &str) -> Option<u64>
    ensures { result ≡ number_in id.now (rows_of (found_of values.now)) }
{
    match values.get_str(id) {
        Some(word) => number_of(word),
        None => None,
    }
}

/// The number that a decimal word spells.
pub fn number_of(word: &str) -> Option<u64>
    ensures some { IsSome result ↔ (is_number word.now ≡ true) }
    ensures number { IfSome result (λ n. n ≡ value 10 word.now) }
{
    decimal(word.as_bytes())
}

/// The number of cycles or events that an argument gives, if it is in range.
pub fn limit_in(values: &ArgMatches<'_>, id: &str) -> Option<u64>
    ensures number { result ≡ limit_in id.now (rows_of (found_of values.now)) }
    ensures least { IfSome result (λ n. 1 ≤ n) }
    ensures most { IfSome result (λ n. n ≤ CYCLES_MAX) }
{
    within_in(values, id, CYCLES_MAX)
}

/// The number of functions that an argument gives, if it is in range.
pub fn count_in(values: &ArgMatches<'_>, id: &str) -> Option<Count>
    ensures { option_map (λ c. c.functions) result ≡ count_in id.now (rows_of (found_of values.now)) }
{
    match within_in(values, id, u64::from(GENERATED_MAX)) {
        Some(count) => Some(Count {
            functions: count as u32,
        }),
        None => None,
    }
}

// The number that an argument gives, if it is from 1 to `most`.
fn within_in(values: &ArgMatches<'_>, id: &str, most: u64) -> Option<u64>
    ensures number { result ≡ option_and_then (number_within most) (first_of id.now (rows_of (found_of values.now))) }
    ensures least { IfSome result (λ n. 1 ≤ n) }
    ensures most { IfSome result (λ n. n ≤ most) }
{
    match values.get_str(id) {
        Some(word) => number_within(word, most),
        None => None,
    }
}

fn number_within(word: &str, most: u64) -> Option<u64>
    ensures there { IsSome result ↔ (is_within most word.now ≡ true) }
    ensures number { IfSome result (λ n. n ≡ value 10 word.now) }
    ensures least { IfSome result (λ n. 1 ≤ n) }
    ensures most { IfSome result (λ n. n ≤ most) }
{
    match decimal(word.as_bytes()) {
        Some(number) if number != 0 && number <= most => Some(number),
        _ => None,
    }
}

/// Whether a flag was given.
pub fn has_flag(values: &ArgMatches<'_>, id: &str) -> bool
    ensures { result ≡ has_flag id.now (rows_of (found_of values.now)) }
{
    match values.get_str(id) {
        Some(word) => is_true(word),
        None => false,
    }
}

fn is_true(word: &str) -> bool
    ensures { result ≡ bytes_eq word.now (codes "true") }
{
    word == "true"
}

/// The words that an argument of any number of words gives.
pub fn args_in(alloc: Global, values: &ArgMatches<'_>) -> Result<Vec<String>, NoMemory>
    ensures { IfOk result (λ args. map string_bytes args.items ≡ args_in (rows_of (found_of values.now))) }
{
    match values.get_raw("ARG") {
        Some(words) => copies(alloc, words),
        None => Ok(Vec::new(alloc)),
    }
}

fn copies(alloc: Global, words: &[&str]) -> Result<Vec<String>, NoMemory>
    ensures { IfOk result (λ copies. map string_bytes copies.items ≡ map (λ word. word.now) words.now) }
{
    let mut copies = Vec::new(alloc);
    for word in words {
        copies.push(String::from_str(alloc, word)?)?;
    }
    Ok(copies)
}
