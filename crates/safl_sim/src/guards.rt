//! Guards: when a reader of a place looks at the place.

ghost use Rattle.std.specs.Prelude.{◌≡◌, ◌⊎◌, ℕ, ◌<◌, ◌≤◌, length, Some, IfOk, slice_get};
ghost use Rattle.safl_sim.specs.declared.step.Guard.{Guard};
ghost use Rattle.safl_sim.specs.declared.step.Action.TheVariants.{Choose};
ghost use Rattle.safl_sim.specs.Guards.{Unseen, IsGuard, AreGuarded};
ghost use Rattle.safl_sim.specs.Readers.{Lists, IsBlind};

use crate::step::{Action, Guard, Step};
use std::alloc::{AllocError, Global};

/// A guard for each reader of each place.
pub fn guards_of(
    alloc: Global,
    steps: &[Step],
    starts: &[u32],
    readers: &[u32],
) -> Result<Vec<Guard>, AllocError>
    requires lists { (places : ℕ) × (words : ℕ) × Lists starts.now readers.now places words }
    ensures { IfOk result (λ v. AreGuarded steps.now starts.now readers.now v.items) }
{
    let mut guards = vec![in alloc; Guard::Always; readers.len()]?;
    'places: for p in 1..starts.len() {
        guard_part(&mut guards, steps, readers, starts[p - 1], starts[p], p - 1);
    }
    Ok(guards)
}

// Sets the guards of the readers of one place, which are those from `from` to `to`.
fn guard_part(
    guards: &mut [Guard],
    steps: &[Step],
    readers: &[u32],
    from: u32,
    to: u32,
    place: usize,
)
    requires ordered { from ≤ to }
    requires within { to ≤ length readers.now }
    requires long { length guards.old ≡ length readers.now }
    ensures long { length guards.new ≡ length guards.old }
    ensures each { (j k : ℕ) (g : Guard) → from ≤ j → j < to → slice_get readers.now j ≡ Some k
        → slice_get guards.new j ≡ Some g → IsGuard steps.now place k g }
    ensures others { (j : ℕ) → (j < from) ⊎ (to ≤ j) → slice_get guards.new j ≡ slice_get guards.old j }
{
    'readers: for j in from..to {
        guards[j as usize] = guard_of(steps, readers[j as usize] as usize, place);
    }
}

// The guard of a reader of a place.
fn guard_of(steps: &[Step], k: usize, place: usize) -> Guard
    ensures { IsGuard steps.now place k result }
{
    match steps.get(k) {
        Some(step) => match step.action {
            Action::Choose(c, a, b) => guard_in(place, c, a, b),
            Action::WideChoose(c, a, b) => guard_in(place, c, a, b),
            _ => Guard::Always,
        },
        None => Guard::Always,
    }
}

// The guard of a choice. It always looks at its condition `c`, but at a branch only if the condition selects it.
fn guard_in(place: usize, c: u32, a: u32, b: u32) -> Guard
    ensures { (f : ℕ → ℕ) → Unseen f result → IsBlind f place (Choose c a b) }
{
    if c as usize == place {
        return Guard::Always;
    }
    if b as usize != place {
        Guard::If(c)
    } else if a as usize != place {
        Guard::Unless(c)
    } else {
        Guard::Always
    }
}
