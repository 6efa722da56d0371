//! The units that an event changes.

ghost use Rattle.std.specs.Prelude.{◌≡◌, ◌<◌};
ghost use Rattle.safl_core.specs.Marking.{Concerns, IsThere};
ghost use Rattle.safl_core.specs.Shown.{event_of};

use crate::event::Event;
use safl_term::Checked;

/// Two units. They may be the same.
#[derive(Clone, Copy)]
pub struct TwoUnits {
    pub unit: u32,
    pub other: u32,
}

impl TwoUnits {
    // A single unit.
    fn alone(unit: u32) -> TwoUnits
        ensures unit { result.unit ≡ unit }
        ensures other { result.other ≡ unit }
    {
        TwoUnits { unit, other: unit }
    }
}

/// The units that an event concerns. For a return these are the unit that served the site and the unit whose body has
/// the site; for other events the unit that accepts, finishes or loops.
pub fn concerned(c: &Checked, e: Event) -> TwoUnits
    requires { IsThere c.now.program (event_of e) }
    ensures concerns { Concerns c.now.program (event_of e) result.unit result.other }
    ensures unit { result.unit < c.now.program.functions }
    ensures other { result.other < c.now.program.functions }
{
    match e {
        Event::Accept(k) => TwoUnits::alone(c.unit_for(k)),
        Event::Finish(f) => TwoUnits::alone(c.unit(f)),
        Event::Return(k) => {
            let unit = c.unit_for(k);
            if k == 0 {
                return TwoUnits::alone(unit);
            }
            TwoUnits {
                unit,
                other: c.unit(c.caller(k)),
            }
        }
        Event::Loop(h) => TwoUnits::alone(c.unit(h)),
    }
}
