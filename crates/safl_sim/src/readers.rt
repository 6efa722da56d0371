//! Marking the readers of a place whose number is new.

ghost use Rattle.std.specs.Prelude.{◌≡◌, ℕ, ◌+◌, ◌/◌, ◌<◌, ◌≤◌, length, Some, slice_get, slice_index, false};
ghost use Rattle.safl_sim.specs.Guards.{Unseen};
ghost use Rattle.safl_sim.specs.Readers.{IsPart};
ghost use Rattle.safl_sim.specs.Plans.{MarksPart, HasGroup, MarksGroup};

use crate::marks::Marks;
use crate::plan::Plan;
use crate::step::{Group, Guard};
use safl_word::Numbers;

// With at least this many readers, those that are blind to the place are left out. This matters only for speed.
const MANY: u32 = 8;

/// Marks some of the readers of a place. If they are many, it leaves out steps that are blind to the place.
#[inline(always)]
pub fn mark_readers(values: &Numbers, marks: &mut Marks, plan: &Plan, from: u32, to: u32)
    requires ordered { from ≤ to }
    requires within { to ≤ length plan.now.readers.items }
    requires known { (j k : ℕ) → slice_get plan.now.readers.items j ≡ Some k → k / 64 < length marks.old }
    ensures { (p : ℕ) → IsPart plan.now.starts.items p from to → MarksPart plan.now from to p values.now marks.old marks.new }
{
    // Not `==`, so that the compiler knows that the loop has a first reader.
    if from >= to {
        return;
    }
    if to - from >= MANY {
        mark_seeing(values, marks, plan, from, to);
        return;
    }
    'readers: for j in from..to {
        marks.mark(plan.readers[j as usize] as usize);
    }
}

// Marks some of the readers of a place, but no step that is blind to the place. It is a function of its own, as few
// places have many readers.
#[inline(never)]
fn mark_seeing(values: &Numbers, marks: &mut Marks, plan: &Plan, from: u32, to: u32)
    requires ordered { from ≤ to }
    requires within { to ≤ length plan.now.readers.items }
    requires known { (j k : ℕ) → slice_get plan.now.readers.items j ≡ Some k → k / 64 < length marks.old }
    ensures { (p : ℕ) → IsPart plan.now.starts.items p from to → MarksPart plan.now from to p values.now marks.old marks.new }
{
    'readers: for j in from..to {
        if sees(values, plan.guards[j as usize]) {
            marks.mark(plan.readers[j as usize] as usize);
        }
    }
}

// Whether a guard lets its reader look.
#[inline(always)]
fn sees(values: &Numbers, guard: Guard) -> bool
    ensures { result ≡ false → Unseen (slice_index values.now) guard }
{
    match guard {
        Guard::Always => true,
        Guard::If(c) => values.is_one(c as usize),
        Guard::Unless(c) => !values.is_one(c as usize),
    }
}

/// Marks the near readers of a register at once, and its other readers as `mark_readers` does.
#[inline(always)]
pub fn mark_group(values: &Numbers, marks: &mut Marks, plan: &Plan, group: Group)
    requires group { (p : ℕ) × (p + 1 < length plan.now.starts.items) × HasGroup plan.now p group }
    requires within { group.near.end ≤ length plan.now.readers.items }
    requires known { (j k : ℕ) → slice_get plan.now.readers.items j ≡ Some k → k / 64 < length marks.old }
    ensures { MarksGroup plan.now group values.now marks.old marks.new }
{
    let near = group.near;
    marks.join(group.word as usize, near.mask);
    mark_readers(values, marks, plan, near.first, near.end);
}
