//! The members of a set by group, with their numbers in each block.

ghost use Rattle.std.specs.Prelude.{◌≡◌, ◌+◌, ◌<◌, ◌≤◌, IfOk, length, sum, take, get_or, not};
ghost use Rattle.std.specs.Int.{from_bool};
ghost use Rattle.safl_number_set.specs.Groups.{AreGrouped, Puts, Tallies, counted, none_of, shown_groups, turned};
ghost use Rattle.safl_number_set.specs.Linking.{AreBelow};

use crate::links::{Links, linked};
use crate::places::{Found, SPAN};
use crate::tally::{Tally, shifted};
use std::alloc::{AllocError, Global};

/// The state of a grouped set: the group of each number, 1 or 0 for whether a number is in the set, 1 or 0 for whether
/// a group is open, and the links of the groups. `parts` has at the last number of a group in a block how many of the
/// group's numbers in that block are in the set.
#[derive(Drop)]
pub struct Groups {
    pub group: Vec<u32>,
    pub within: Vec<u32>,
    pub opened: Vec<u32>,
    pub links: Links,
    pub parts: Vec<u32>,
}

/// The state of the empty set. `group` has the group of each number, and there are `count` groups, all open.
pub fn grouped(alloc: Global, group: Vec<u32>, count: usize) -> Result<Groups, AllocError>
    requires few { length group.items ≤ 5000 }
    requires below { AreBelow count group.items }
    ensures grouped { IfOk result (λ s. AreGrouped s) }
    ensures shown { IfOk result (λ s. shown_groups s ≡ none_of group.items count) }
{
    let numbers = group.len();
    let within = vec![in alloc; 0; numbers]?;
    let opened = vec![in alloc; 1; count]?;
    let links = linked(alloc, &group, count)?;
    let parts = vec![in alloc; 0; numbers]?;
    Ok(Groups {
        group,
        within,
        opened,
        links,
        parts,
    })
}

/// Puts a number into the set, or takes it out.
pub fn put(s: &mut Groups, k: usize, is_in: bool)
    requires grouped { AreGrouped s.old }
    requires number { k < length s.old.group.items }
    requires differs { get_or s.old.within.items k 0 ≡ from_bool (not is_in) }
    ensures { Puts s.old k is_in s.new }
{
    let end = s.links.ends[k] as usize;
    s.within[k] = bit(is_in);
    s.parts[end] = shifted(s.parts[end], 1, is_in);
}

/// Adds the members of a closed group to the counted ones, or takes those of an open group out of them.
pub fn count(s: &Groups, g: usize, more: bool, tally: &mut Tally)
    requires grouped { AreGrouped s.now }
    requires group { g < length s.now.opened.items }
    requires differs { get_or s.now.opened.items g 0 ≡ from_bool (not more) }
    requires tallies { Tallies (counted (shown_groups s.now)) tally.old }
    ensures { Tallies (counted (turned (shown_groups s.now) g more)) tally.new }
{
    let numbers = s.parts.len();
    let mut k = s.links.heads[g] as usize;
    while k < numbers {
        tally.shift(k / SPAN, s.parts[k], more);
        k = s.links.nexts[k] as usize;
    }
}

/// The number at a place among the counted ones, searched from `from` on.
pub fn find_counted(s: &Groups, from: Found, place: u32) -> usize
    requires grouped { AreGrouped s.now }
    requires start { from.before ≡ sum (take from.at (counted (shown_groups s.now))) }
    requires reached { from.before ≤ place }
    requires passed { place < sum (counted (shown_groups s.now)) }
    ensures within { get_or (counted (shown_groups s.now)) result 0 ≡ 1 }
    ensures below { place ≡ sum (take result (counted (shown_groups s.now))) }
{
    let mut before = from.before;
    for k in from.at..s.group.len() {
        let next = before + counts(s, k);
        if place < next {
            return k;
        }
        before = next;
    }
    unreachable!()
}

/// 1 if a number is in the set and its group is open, else 0.
pub fn counts(s: &Groups, k: usize) -> u32
    requires grouped { AreGrouped s.now }
    requires number { k < length s.now.group.items }
    ensures { result ≡ get_or (counted (shown_groups s.now)) k 0 }
{
    s.within[k] * s.opened[s.group[k] as usize]
}

/// 1 for true, 0 for false.
pub fn bit(is: bool) -> u32
    ensures { result ≡ from_bool is }
{
    if is { 1 } else { 0 }
}
