//! Plans a source of 1,000 functions with nearly 4,000 call sites, and prints what the plan has.
//!
//! With a word, such as `check`, it stops before the plan, so the difference of the two times is that of planning.

use crate::many_sites::{checked, planned};
use std::io;

/// Checks the source, and plans it if there is no word.
pub fn run(rt: &HostRuntime, words: &[String]) -> io::Result<()> {
    let Ok(Some(checked)) = checked(rt.alloc()) else {
        return println!(rt; "out of memory");
    };
    let (functions, sites) = (checked.functions(), checked.sites());
    println!(rt; "functions {functions}\nsites {sites}")?;
    if !words.is_empty() {
        return Ok(());
    }
    match planned(rt.alloc(), checked) {
        Some(totals) => { println!(rt; "arbiters {}\nkept words {}", totals.arbiters, totals.kept) }
        None => println!(rt; "out of memory"),
    }
}
