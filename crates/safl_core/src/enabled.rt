//! The enabled events, as sets that are updated after each event.

ghost use Rattle.std.specs.Prelude.{◌≡◌, ℕ, suc, ◌<◌, ◌≤◌, Some};
ghost use Rattle.safl_core.specs.Marking.{HasPlaces, IsThere, Relists, RelistsAfter, RelistsBoth, RelistsCalls, RelistsService, RelistsUnit, Nothing};
ghost use Rattle.safl_core.specs.Shown.{event_of};
ghost use Rattle.safl_core.specs.Spans.{InSpan};
ghost use Rattle.safl_core.specs.States.{IsStateAfter, calls_of};

use crate::check::{self, delivered_to};
use crate::concern::TwoUnits;
use crate::event::Event;
use crate::make::called;
use crate::spans::{Span, members_end};
use crate::state::State;
use safl_evaluate::Args;
use safl_number_set::{GroupedSet, NumberSet};
use safl_term::Checked;
use std::alloc::{AllocError, Global};

/// The enabled events of each kind, and the busy units. `accepts` has the sites that are unsent and wanted. Each
/// belongs to the group of the unit that it calls, and the groups of idle units are open, so the sites that it counts
/// are those whose calls can be accepted. `finishes` has the functions that can finish, `returns` the sites that can
/// get their word, `loops` the functions to which a unit can loop.
#[derive(Drop)]
pub struct Enabled {
    pub accepts: GroupedSet,
    pub finishes: NumberSet,
    pub returns: NumberSet,
    pub loops: NumberSet,
    pub busy: NumberSet,
}

impl Enabled {
    ghost use Rattle.std.specs.Prelude.{◌≡◌, ◌<◌, IfOk};
    ghost use Rattle.safl_core.specs.Marking.{IsNth, OpensWith, marked};
    ghost use Rattle.safl_core.specs.Shown.{event_of};

    /// The sets at the start, when main waits to be accepted.
    pub fn new(alloc: Global, c: &Checked) -> Result<Enabled, AllocError>
        ensures { IfOk result (λ e. OpensWith c.now.program e) }
    {
        let functions = c.functions() as usize;
        let sites = c.sites() as usize + 1;
        let units = called(alloc, c)?;
        let mut accepts = GroupedSet::new(alloc, units, functions)?;
        let finishes = NumberSet::new(alloc, functions)?;
        let returns = NumberSet::new(alloc, sites)?;
        let loops = NumberSet::new(alloc, functions)?;
        let busy = NumberSet::new(alloc, functions)?;
        accepts.put(0, true);
        Ok(Enabled {
            accepts,
            finishes,
            returns,
            loops,
            busy,
        })
    }

    /// How many events are enabled.
    pub fn count(&self) -> u32
        ensures { result ≡ marked self.now }
    {
        self.accepts.len() + self.finishes.len() + self.returns.len() + self.loops.len()
    }

    /// The event at a place among the enabled ones. Accepts come first, then finishes, returns and loops, each by
    /// rising number.
    pub fn nth(&self, place: u32) -> Event
        requires { place < marked self.now }
        ensures { IsNth self.now place (event_of result) }
    {
        let accepts = self.accepts.len();
        if place < accepts {
            return Event::Accept(self.accepts.nth(place));
        }
        let place = place - accepts;
        let finishes = self.finishes.len();
        if place < finishes {
            return Event::Finish(self.finishes.nth(place));
        }
        let place = place - finishes;
        let returns = self.returns.len();
        if place < returns {
            return Event::Return(self.returns.nth(place));
        }
        Event::Loop(self.loops.nth(place - returns))
    }
}

/// After an event that concerned these units, updates which units are idle, which events of their bodies are enabled,
/// and whether a site can get its word. `before` is the site to which the first of the units delivered before the
/// event.
pub fn relist_after(
    c: &Checked,
    opening: &Args,
    state: &State,
    concerned: TwoUnits,
    before: Option<u32>,
    enabled: &mut Enabled,
)
    requires kept { (n : ℕ) × IsStateAfter c.now opening.now n state.now }
    requires unit { concerned.unit < c.now.program.functions }
    requires other { concerned.other < c.now.program.functions }
    requires places { HasPlaces c.now.program enabled.old }
    ensures { RelistsAfter c.now.program opening.now (calls_of state.now) concerned.unit concerned.other before enabled.old enabled.new }
{
    relist_both(c, opening, state, concerned, enabled);
    relist_service(c, opening, state, concerned.unit, before, enabled);
}

/// After an event, updates which calls wait: of the sites that the event touched, and of the site that was accepted.
pub fn relist_calls(
    c: &Checked,
    opening: &Args,
    state: &State,
    touched: Span,
    e: Event,
    enabled: &mut Enabled,
)
    requires kept { (n : ℕ) × IsStateAfter c.now opening.now n state.now }
    requires span { touched.end ≤ suc c.now.program.sites }
    requires there { IsThere c.now.program (event_of e) }
    requires places { HasPlaces c.now.program enabled.old }
    ensures { RelistsCalls c.now.program opening.now (calls_of state.now) touched (event_of e) enabled.old enabled.new }
{
    relist_touched(c, opening, state, touched, enabled);
    if let Event::Accept(k) = e {
        relist_call(c, opening, state, k, enabled);
    }
}

// Updates which of two units are idle, and which events of their bodies are enabled.
fn relist_both(
    c: &Checked,
    opening: &Args,
    state: &State,
    concerned: TwoUnits,
    enabled: &mut Enabled,
)
    requires kept { (n : ℕ) × IsStateAfter c.now opening.now n state.now }
    requires unit { concerned.unit < c.now.program.functions }
    requires other { concerned.other < c.now.program.functions }
    requires places { HasPlaces c.now.program enabled.old }
    ensures { RelistsBoth c.now.program opening.now (calls_of state.now) concerned.unit concerned.other enabled.old enabled.new }
{
    relist(c, opening, state, concerned.unit, enabled);
    if concerned.other == concerned.unit {
        return;
    }
    relist(c, opening, state, concerned.other, enabled);
}

// Updates whether a unit is idle, and the events of its members.
fn relist(c: &Checked, opening: &Args, state: &State, u: u32, enabled: &mut Enabled)
    requires kept { (n : ℕ) × IsStateAfter c.now opening.now n state.now }
    requires unit { u < c.now.program.functions }
    requires places { HasPlaces c.now.program enabled.old }
    ensures { RelistsUnit c.now.program opening.now (calls_of state.now) u enabled.old enabled.new }
{
    relist_unit(c, opening, state, u, enabled);
    relist_members(c, opening, state, u, enabled);
}

// Updates whether a unit is idle.
fn relist_unit(c: &Checked, opening: &Args, state: &State, u: u32, enabled: &mut Enabled)
    requires kept { (n : ℕ) × IsStateAfter c.now opening.now n state.now }
    requires unit { u < c.now.program.functions }
    requires places { HasPlaces c.now.program enabled.old }
    ensures { Relists c.now.program opening.now (calls_of state.now) Nothing Nothing Nothing (λ v. v ≡ u) enabled.old enabled.new }
{
    let idle = check::is_idle(&state.modes, u);
    enabled.accepts.turn(u, idle);
    enabled.busy.put(u, !idle);
}

// Updates the events of a unit's members.
fn relist_members(c: &Checked, opening: &Args, state: &State, u: u32, enabled: &mut Enabled)
    requires kept { (n : ℕ) × IsStateAfter c.now opening.now n state.now }
    requires unit { u < c.now.program.functions }
    requires places { HasPlaces c.now.program enabled.old }
    ensures { Relists c.now.program opening.now (calls_of state.now) Nothing Nothing (λ f. c.now.program.unit f ≡ u) Nothing enabled.old enabled.new }
{
    for f in u..members_end(c, u) {
        relist_member(c, opening, state, f, enabled);
    }
}

fn relist_member(c: &Checked, opening: &Args, state: &State, f: u32, enabled: &mut Enabled)
    requires kept { (n : ℕ) × IsStateAfter c.now opening.now n state.now }
    requires function { f < c.now.program.functions }
    requires places { HasPlaces c.now.program enabled.old }
    ensures { Relists c.now.program opening.now (calls_of state.now) Nothing Nothing (λ g. g ≡ f) Nothing enabled.old enabled.new }
{
    let unit = c.unit(f);
    enabled
        .finishes
        .put(f, check::finishes(&state.modes, &state.answers, unit, f));
    enabled.loops.put(f, check::loops(&state.answers, unit, f));
}

// Updates which calls of a span of sites wait.
fn relist_touched(c: &Checked, opening: &Args, state: &State, touched: Span, enabled: &mut Enabled)
    requires kept { (n : ℕ) × IsStateAfter c.now opening.now n state.now }
    requires span { touched.end ≤ suc c.now.program.sites }
    requires places { HasPlaces c.now.program enabled.old }
    ensures { Relists c.now.program opening.now (calls_of state.now) (λ k. InSpan touched k) Nothing Nothing Nothing enabled.old enabled.new }
{
    for k in touched.first..touched.end {
        relist_call(c, opening, state, k, enabled);
    }
}

// Updates whether the call of a site waits.
fn relist_call(c: &Checked, opening: &Args, state: &State, k: u32, enabled: &mut Enabled)
    requires kept { (n : ℕ) × IsStateAfter c.now opening.now n state.now }
    requires site { k ≤ c.now.program.sites }
    requires places { HasPlaces c.now.program enabled.old }
    ensures { Relists c.now.program opening.now (calls_of state.now) (λ j. j ≡ k) Nothing Nothing Nothing enabled.old enabled.new }
{
    let waits = check::waits(&state.stages, &state.wants.each, k);
    enabled.accepts.put(k, waits);
}

// Updates whether a unit has a word, for the site to which it delivered before and for the one to which it delivers
// now.
fn relist_service(
    c: &Checked,
    opening: &Args,
    state: &State,
    u: u32,
    before: Option<u32>,
    enabled: &mut Enabled,
)
    requires kept { (n : ℕ) × IsStateAfter c.now opening.now n state.now }
    requires unit { u < c.now.program.functions }
    requires places { HasPlaces c.now.program enabled.old }
    ensures { RelistsService c.now.program opening.now (calls_of state.now) u before enabled.old enabled.new }
{
    relist_return(c, opening, state, before, enabled);
    relist_return(c, opening, state, delivered_to(&state.modes, u), enabled);
}

// Updates whether a site, if there is one, can get its word.
fn relist_return(
    c: &Checked,
    opening: &Args,
    state: &State,
    site: Option<u32>,
    enabled: &mut Enabled,
)
    requires kept { (n : ℕ) × IsStateAfter c.now opening.now n state.now }
    requires places { HasPlaces c.now.program enabled.old }
    ensures { Relists c.now.program opening.now (calls_of state.now) Nothing (λ j. site ≡ Some j) Nothing Nothing enabled.old enabled.new }
{
    let Some(k) = site else {
        return;
    };
    if k > c.sites() {
        return;
    }
    let returns = check::returns(c, &state.modes, &state.stages, k);
    enabled.returns.put(k, returns);
}
