//! Links from one block of 32 numbers that has numbers of a group to the next.

ghost use Rattle.std.specs.Prelude.{◌≡◌, suc, ◌<◌, ◌≤◌, length, IfOk};
ghost use Rattle.safl_number_set.specs.Linking.{AreBelow, AreLinked, AreLinkedFrom};

use crate::places::SPAN;
use std::alloc::{AllocError, Global};

/// `ends` has for each number the last number of its group in its block. `heads` has for each group that number of the
/// first block with numbers of the group, and `nexts` has for each such number the one of the next block with some. If
/// there is none, the entry is the number after the last one.
#[derive(Drop)]
pub struct Links {
    pub ends: Vec<u32>,
    pub heads: Vec<u32>,
    pub nexts: Vec<u32>,
}

/// The links for `count` groups. `group` has the group of each number.
pub fn linked(alloc: Global, group: &[u32], count: usize) -> Result<Links, AllocError>
    requires few { length group.now ≤ 5000 }
    requires below { AreBelow count group.now }
    ensures count { IfOk result (λ l. length l.heads.items ≡ count) }
    ensures linked { IfOk result (λ l. AreLinked group.now l) }
{
    let numbers = group.len();
    let ends = vec![in alloc; 0; numbers]?;
    let heads = vec![in alloc; numbers as u32; count]?;
    let nexts = vec![in alloc; 0; numbers]?;
    let mut links = Links { ends, heads, nexts };
    for done in 0..numbers {
        link(group, &mut links, numbers - done - 1);
    }
    Ok(links)
}

// Links number `k`. The numbers after it are linked already.
fn link(group: &[u32], links: &mut Links, k: usize)
    requires few { length group.now ≤ 5000 }
    requires below { AreBelow (length links.old.heads.items) group.now }
    requires number { k < length group.now }
    requires linked { AreLinkedFrom (suc k) group.now links.old }
    ensures count { length links.new.heads.items ≡ length links.old.heads.items }
    ensures linked { AreLinkedFrom k group.now links.new }
{
    let g = group[k] as usize;
    let head = links.heads[g];
    if (head as usize) < group.len() && head as usize / SPAN == k / SPAN {
        links.ends[k] = head;
        return;
    }
    links.ends[k] = k as u32;
    links.nexts[k] = head;
    links.heads[g] = k as u32;
}
