//! The tail calls of a body, merged by the function that they go to.

ghost use Rattle.std.specs.Prelude.{◌+◌, IfOk, OnOk, map};
ghost use Rattle.safl_net.specs.Names.{IsTidy};
ghost use Rattle.safl_net.specs.Growth.{Grows};
ghost use Rattle.safl_lower.specs.Sources.{Builds, CanGrow};
ghost use Rattle.safl_lower.specs.Typing.{Owner};
ghost use Rattle.safl_lower.specs.Entries.{Between, member_of, LoopsFit, cost};
ghost use Rattle.safl_lower.specs.Loads.{Merged};

use crate::load_tables::no_loads;
use crate::loads::{Load, add_load};
use crate::lowered::TailCall;
use safl_net::Net;
use safl_word::NoMemory;
use std::alloc::Global;

/// The tail calls to each of the `members` functions from `first` on. Of several to one function, the first that is
/// made counts.
pub fn merge(
    alloc: Global,
    net: &mut Net,
    first: u32,
    members: u32,
    calls: &[TailCall],
) -> Result<Vec<Option<Load>>, NoMemory>
    requires fit { (F : Owner) × LoopsFit F net.old calls.now }
    requires within { Between first (first + members) (map member_of calls.now) }
    requires room { CanGrow net.old (cost calls.now) }
    ensures tidy { IsTidy net.new }
    ensures grows { Grows net.old net.new }
    ensures built { OnOk result (Builds net.old net.new (cost calls.now)) }
    ensures merged { IfOk result (λ xs. Merged first members net.old net.new calls.now xs.items) }
{
    let mut loads = no_loads(alloc, members as usize)?;
    for call in calls {
        let place = (call.member - first) as usize;
        add_load(alloc, net, &mut loads, place, call.taken, &call.args)?;
    }
    Ok(loads)
}
