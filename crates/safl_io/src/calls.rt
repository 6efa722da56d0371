//! Calls that are to fail, for shelves and sinks in memory.
ghost use Rattle.std.specs.Prelude.{◌≡◌, ◌≤◌, ◌↔◌, IsTrue, OnOk, OnErr};
ghost use Rattle.safl_io.specs.Counts.{Rose, raised};
ghost use Rattle.safl_io.specs.Calls.{Calls, Fails, called, no_calls, with_failing};

use std::alloc::{AllocError, Global};
use std::marker::Model;

/// A count of faults after one more. It stays at the maximum of its type.
pub(crate) fn raise(count: u64) -> u64
    ensures raised { result ≡ raised count }
    ensures rose { Rose count result }
    ensures later { count ≤ result }
{
    count.saturating_add(1)
}

// The number of calls so far, and the numbers of the calls that are to fail.
#[derive(Drop)]
pub(crate) struct CallPlan {
    failing: Vec<u64>,
    made: u64,
}

impl Model for CallPlan {
    ghost Value = { Calls };

    ghost view = { λ plan. record { failing = plan.failing.items; made = plan.made } };
}

impl CallPlan {
    pub(crate) fn new(alloc: Global) -> Self
        ensures { result ≡ no_calls }
    {
        CallPlan {
            failing: Vec::new(alloc),
            made: 0,
        }
    }

    pub(crate) fn fail_call(&mut self, call: u64) -> Result<(), AllocError>
        ensures listed { OnOk result (self.new ≡ with_failing call self.old) }
        ensures same { OnErr result (self.new ≡ self.old) }
    {
        self.failing.push(call)?;
        Ok(())
    }

    /// Counts a call, and says whether it is to fail.
    pub(crate) fn next_fails(&mut self) -> bool
        ensures fails { IsTrue result ↔ Fails self.old }
        ensures called { self.new ≡ called self.old }
    {
        self.made = raise(self.made);
        self.failing.contains(&self.made)
    }
}
