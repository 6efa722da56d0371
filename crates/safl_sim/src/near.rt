//! Near readers.
//!
//! The near readers of a step's wire have their marks in one word with the step, those of a register in one word with
//! its first reader.

ghost use Rattle.std.specs.Prelude.{ℕ, ◌+◌, ◌≤◌, length, IfOk};
ghost use Rattle.safl_sim.specs.Nears.{IsNear, AreGrouped};
ghost use Rattle.safl_sim.specs.Readers.{Lists};
ghost use Rattle.safl_sim.specs.States.{AreBelow};

use crate::step::{Group, Near, Register};
use std::alloc::{AllocError, Global};

/// Splits a part of the readers into those whose marks are in word `word` and the others.
pub fn near_of(readers: &[u32], from: u32, to: u32, word: usize) -> Near
    requires ordered { from ≤ to }
    requires within { to ≤ length readers.now }
    ensures { IsNear readers.now from to word result }
{
    let mut mask = 0;
    let mut first = to;
    'readers: for j in from..to {
        let reader = readers[j as usize] as usize;
        if reader / 64 == word {
            mask |= 1u64 << (reader % 64);
        } else if j < first {
            first = j;
        }
    }
    Near {
        mask,
        first,
        end: to,
    }
}

/// The group of the near readers of each register.
pub fn groups_of(
    alloc: Global,
    registers: &[Register],
    starts: &[u32],
    readers: &[u32],
) -> Result<Vec<Group>, AllocError>
    requires lists { (places : ℕ) × (words : ℕ) × Lists starts.now readers.now places words × AreBelow registers.now places }
    ensures { IfOk result (λ v. AreGrouped starts.now readers.now registers.now v.items) }
{
    let mut groups = Vec::with_capacity(alloc, registers.len())?;
    'registers: for i in 0..registers.len() {
        let place = registers[i].signal.0 as usize;
        groups.push(group_of(readers, starts[place], starts[place + 1]))?;
    }
    Ok(groups)
}

// Splits a part of the readers into those whose marks are in one word with the first, and the others.
fn group_of(readers: &[u32], from: u32, to: u32) -> Group
    requires ordered { from ≤ to }
    requires within { to ≤ length readers.now }
    ensures { IsNear readers.now from to result.word result.near }
{
    let word = if from < to {
        readers[from as usize] / 64
    } else {
        0
    };
    Group {
        word,
        near: near_of(readers, from, to, word as usize),
    }
}
