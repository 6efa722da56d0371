//! Sets of numbers that belong to groups. Only the numbers of open groups are counted.

use crate::groups::{self, Groups, bit, grouped};
use crate::places::{Found, SPAN, find};
use crate::tally::{Tally, zero_tally};
use std::alloc::{AllocError, Global};
use std::marker::Model;

/// A set of numbers below a bound. Each number belongs to a group, which is open or closed. Only the numbers of open
/// groups are counted.
#[derive(Drop)]
pub struct GroupedSet {
    groups: Groups,
    tally: Tally,
}

impl Model for GroupedSet {
    ghost use Rattle.safl_number_set.specs.Groups.{Grouped, AreGrouped, Tallies, counted, shown_groups};

    ghost Value = { Grouped };

    ghost view = { λ s. shown_groups s.groups };

    ghost invariant = { λ s. AreGrouped s.groups × Tallies (counted (shown_groups s.groups)) s.tally };
}

impl GroupedSet {
    ghost use Rattle.std.specs.Prelude.{◌≡◌, ◌<◌, ◌≤◌, length, IfOk, sum, take, slice_index};
    ghost use Rattle.safl_number_set.specs.Groups.{counted, none_of, put_in, turned};
    ghost use Rattle.safl_number_set.specs.Linking.{AreBelow};

    /// The empty set. `group` has the group of each number, and there are `count` groups, all open.
    pub fn new(alloc: Global, group: Vec<u32>, count: usize) -> Result<GroupedSet, AllocError>
        requires few { length group.items ≤ 5000 }
        requires below { AreBelow count group.items }
        ensures { IfOk result (λ s. s ≡ none_of group.items count) }
    {
        let tally = zero_tally(alloc, group.len())?;
        let groups = grouped(alloc, group, count)?;
        Ok(GroupedSet { groups, tally })
    }

    /// How many numbers of open groups are in the set.
    pub fn len(&self) -> u32
        ensures count { result ≡ sum (counted self.now) }
        ensures few { result ≤ 5000 }
    {
        self.tally.total
    }

    /// Puts a number into the set, or takes it out.
    pub fn put(&mut self, k: u32, is_in: bool)
        requires { k < length self.old.group }
        ensures { self.new ≡ put_in self.old k is_in }
    {
        let k = k as usize;
        if self.groups.within[k] == bit(is_in) {
            return;
        }
        groups::put(&mut self.groups, k, is_in);
        if self.groups.opened[self.groups.group[k] as usize] == 1 {
            self.tally.shift(k / SPAN, 1, is_in);
        }
    }

    /// Opens a group, or closes it.
    pub fn turn(&mut self, g: u32, is_open: bool)
        requires { g < length self.old.opened }
        ensures { self.new ≡ turned self.old g is_open }
    {
        let g = g as usize;
        if self.groups.opened[g] == bit(is_open) {
            return;
        }
        groups::count(&self.groups, g, is_open, &mut self.tally);
        self.groups.opened[g] = bit(is_open);
    }

    /// The number at a place among those in the set that belong to open groups, in rising order.
    pub fn nth(&self, place: u32) -> u32
        requires { place < sum (counted self.now) }
        ensures within { slice_index (counted self.now) result ≡ 1 }
        ensures below { place ≡ sum (take result (counted self.now)) }
    {
        let top = find(&self.tally.tops, 0, 0, place);
        let block = find(&self.tally.blocks, top.at * SPAN, top.before, place);
        let from = Found {
            at: block.at * SPAN,
            before: block.before,
        };
        groups::find_counted(&self.groups, from, place) as u32
    }
}
