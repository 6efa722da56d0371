//! Walks: runs of a call machine whose events are picked by a sequence of pseudo-random numbers.

ghost use Rattle.std.specs.Prelude.{◌≡◌, ◌+◌, ◌-◌, ◌^◌, ◌<◌, IfSome, IfNone};
ghost use Rattle.safl_term.specs.Readiness.{back_word};
ghost use Rattle.safl_core.specs.Outcomes.{IsValue};
ghost use Rattle.safl_core.specs.Shown.{state};
ghost use Rattle.safl_core.specs.Walking.{IsWalk, IsShort};
ghost use Rattle.safl_word.specs.Naturals.{number_after};

use crate::machine::Machine;
use safl_word::Word;

/// The outcome of a walk: what main has returned, the number of events fired, and the greatest number of units that
/// were busy at once, in any state from the first to the last.
#[derive(Clone, Copy, Debug, PartialEq, Eq)]
pub struct Walked {
    pub result: Option<Word>,
    pub events: u64,
    pub units: u32,
}

/// Fires `steps` events, or fewer if main returns before. Each event is picked by the next number of the sequence that
/// begins with the seed.
pub fn walk(machine: &mut Machine, seed: u64, steps: u64) -> Walked
    requires { machine.old.events + steps < 2 ^ 64 - 1 }
    ensures walk { IsWalk machine.old seed steps machine.new result.units }
    ensures result { result.result ≡ back_word ((state machine.new).site 0) }
    ensures events { result.events ≡ machine.new.events }
    ensures value { IfSome result.result (λ v. IsValue machine.new v) }
    ensures short { IfNone result.result (IsShort machine.old (machine.old.events + steps)) }
{
    let mut number = seed;
    let mut units = machine.busy();
    for _turn in 0..steps {
        number = following(number);
        let Some(event) = machine.pick(number) else {
            break;
        };
        machine.fire(event);
        units = units.max(machine.busy());
    }
    Walked {
        result: machine.result(),
        events: machine.events(),
        units,
    }
}

// The number after `x` in the sequence.
fn following(x: u64) -> u64
    ensures { result ≡ number_after x }
{
    ((u128::from(x) * 1_103_515_245 + 12_345) % (1 << 31)) as u64
}
