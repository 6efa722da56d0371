//! The call machine of a program.

ghost use Rattle.std.specs.Prelude.{◌≡◌, ◌%◌, ◌<◌, ◌≤◌};

use crate::concern::concerned;
use crate::enabled::{Enabled, relist_after, relist_calls};
use crate::event::Event;
use crate::state::State;
use crate::{check, fire, make};
use safl_evaluate::{Args, Plan, Stage, Wants, planned};
use safl_term::Checked;
use safl_word::Word;
use safl_word::limits::{NODES_MAX, PARAMS_MAX};
use std::alloc::{AllocError, Global};
use std::marker::Model;

// The words of the slots of any body: at most as many as its parameters and nodes.
const ROOM: usize = PARAMS_MAX + NODES_MAX as usize;

/// Why a machine cannot be made: the arguments differ from main's parameters in number or in a width, or memory ran
/// out.
#[derive(Clone, Copy, Debug, PartialEq, Eq)]
pub enum MachineErr {
    BadArgs,
    NoMemory,
}

/// A call machine: units that serve the calls of a program, one event at a time. Once made it takes no memory.
#[derive(Drop)]
pub struct Machine<'a> {
    checked: &'a Checked,
    opening: Args,
    state: State,
    sets: Enabled,
    plan: Plan,
    events: u64,
}

impl<'a> Model for Machine<'a> {
    ghost use Rattle.std.specs.Coded.{codes};
    ghost use Rattle.safl_term.specs.contracts.checked.Checked as inner;
    ghost use Rattle.safl_core.specs.Shown.{Shown, shown_of};
    ghost use Rattle.safl_core.specs.Held.{IsHeld};

    ghost Value = { Shown };

    ghost coded = { Prim.hlevel (codes, inner.the_row.coded) };

    ghost view = { λ m. shown_of m.checked.now m.opening m.state.modes.items m.state.stages.items m.events };

    ghost invariant = { λ m. IsHeld m.checked.now m.opening m.events m.state m.sets m.plan };
}

impl<'a> Machine<'a> {
    ghost use Rattle.std.specs.Prelude.{◌≡◌, ◌+◌, ◌-◌, ◌^◌, ◌<◌, ◌≤◌, ◌↔◌, Err, IsTrue, IfOk, IfSome, IfNone, IsNone, IsSome};
    ghost use Rattle.safl_term.specs.Readiness.{back_word};
    ghost use Rattle.safl_word.specs.Words.{widths};
    ghost use Rattle.safl_core.specs.Listing.{busy};
    ghost use Rattle.safl_core.specs.Picking.{IsPicked};
    ghost use Rattle.safl_core.specs.Outcomes.{IsValue, IsBounded, GoesOn, IsOver};
    ghost use Rattle.safl_core.specs.Walking.{IsShort};
    ghost use Rattle.safl_core.specs.Shown.{state, event_of, IsReached, CanFire, Fires, Opens};

    /// A machine whose units are all idle, and whose main waits to be accepted with these arguments.
    pub fn new(alloc: Global, c: &'a Checked, args: &[Word]) -> Result<Machine<'a>, MachineErr>
        ensures bad_args { result ≡ Err MachineErr.BadArgs ↔ (widths args.now ≡ c.now.program.params c.now.program.main → ⊥) }
        ensures opens { IfOk result (λ m. Opens c.now args.now m) }
    {
        if !make::fits(c, args) {
            return Err(MachineErr::BadArgs);
        }
        match Machine::opened(alloc, c, args) {
            Ok(machine) => Ok(machine),
            Err(_) => Err(MachineErr::NoMemory),
        }
    }

    fn opened(alloc: Global, c: &'a Checked, args: &[Word]) -> Result<Machine<'a>, AllocError>
        requires { widths args.now ≡ c.now.program.params c.now.program.main }
        ensures { IfOk result (λ m. Opens c.now args.now m) }
    {
        let functions = c.functions() as usize;
        let sites = c.sites() as usize + 1;
        let modes = make::idle(alloc, functions)?;
        let stages = make::unsent(alloc, sites)?;
        let answers = make::unanswered(alloc, functions)?;
        let wants = make::unwanted(alloc, sites)?;
        let env = make::room(alloc, ROOM)?;
        let sets = Enabled::new(alloc, c)?;
        let plan = planned(alloc, c)?;
        let kept = make::nothing_kept(alloc, NODES_MAX as usize)?;
        Ok(Machine {
            checked: c,
            opening: Args::new(args),
            state: State {
                modes,
                stages,
                answers,
                wants: Wants::new(wants),
                env,
                kept,
            },
            sets,
            plan,
            events: 0,
        })
    }

    /// The number of events fired so far.
    pub fn events(&self) -> u64
        ensures count { result ≡ self.now.events }
        ensures reached { IsReached self.now }
        ensures bounded { IsBounded self.now }
    {
        self.events
    }

    /// The word that main has returned: its value, after three events for each call, less two for each tail call. Until
    /// main has returned some event is enabled, and afterwards none is.
    pub fn result(&self) -> Option<Word>
        ensures returned { result ≡ back_word ((state self.now).site 0) }
        ensures value { IfSome result (λ v. IsValue self.now v) }
        ensures goes_on { IfNone result (GoesOn self.now) }
        ensures over { IsSome result → IsOver self.now }
        ensures short { IfNone result (IsShort self.now self.now.events) }
    {
        match self.state.stages[0] {
            Stage::Unsent => None,
            Stage::Sent => None,
            Stage::Returned(word) => Some(word),
        }
    }

    /// Whether an event is enabled now.
    pub fn enabled(&self, e: Event) -> bool
        ensures { IsTrue result ↔ CanFire self.now (event_of e) }
    {
        let c = self.checked;
        let functions = c.functions();
        match e {
            Event::Accept(k) => {
                if k > c.sites() {
                    return false;
                }
                check::accepts(
                    c,
                    &self.state.modes,
                    &self.state.stages,
                    &self.state.wants.each,
                    k,
                )
            }
            Event::Finish(f) => {
                if f >= functions {
                    return false;
                }
                check::finishes(&self.state.modes, &self.state.answers, c.unit(f), f)
            }
            Event::Return(k) => {
                if k > c.sites() {
                    return false;
                }
                check::returns(c, &self.state.modes, &self.state.stages, k)
            }
            Event::Loop(h) => {
                if h >= functions {
                    return false;
                }
                check::loops(&self.state.answers, c.unit(h), h)
            }
        }
    }

    /// The number of busy units.
    pub fn busy(&self) -> u32
        ensures { result ≡ busy self.now.program (state self.now) }
    {
        self.sets.busy.len()
    }

    /// The event at place `x` modulo the number of enabled events. They are listed as accepts, finishes, returns and
    /// loops, each by rising number. None if no event is enabled, which is so exactly after main has returned.
    pub fn pick(&self, x: u64) -> Option<Event>
        ensures picked { IfSome result (λ e. IsPicked self.now.program self.now.args (state self.now) x (event_of e)) }
        ensures fires { IfSome result (λ e. CanFire self.now (event_of e)) }
        ensures none { IsNone result ↔ IsSome (back_word ((state self.now).site 0)) }
    {
        let count = self.sets.count();
        if count == 0 {
            return None;
        }
        Some(self.sets.nth(picked(x, count)))
    }

    /// Fires an enabled event.
    pub fn fire(&mut self, e: Event)
        requires can { CanFire self.old (event_of e) }
        requires few { self.old.events < 2 ^ 64 - 1 }
        ensures { Fires self.old (event_of e) self.new }
    {
        let concerned = concerned(self.checked, e);
        let before = check::delivered_to(&self.state.modes, concerned.unit);
        let touched = fire::fire(self.checked, &self.plan, &self.opening, &mut self.state, e);
        relist_after(
            self.checked,
            &self.opening,
            &self.state,
            concerned,
            before,
            &mut self.sets,
        );
        relist_calls(
            self.checked,
            &self.opening,
            &self.state,
            touched,
            e,
            &mut self.sets,
        );
        self.events += 1;
    }
}

// The place that a number picks among so many events. Mostly there is only one, and nothing has to be divided.
fn picked(x: u64, count: u32) -> u32
    requires { 1 ≤ count }
    ensures place { result ≡ x % count }
    ensures within { result < count }
{
    if count == 1 {
        return 0;
    }
    (x % u64::from(count)) as u32
}
