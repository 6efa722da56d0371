//! Firing an event.

ghost use Rattle.std.specs.Prelude.{◌≡◌, ℕ, ◌<◌, length, get_or};
ghost use Rattle.safl_term.specs.Readiness as plain;
ghost use Rattle.safl_calls.specs.Machine as core;
ghost use Rattle.safl_core.specs.Modes.{unit_at};
ghost use Rattle.safl_evaluate.specs.Laying.{IsPlan};
ghost use Rattle.safl_core.specs.Shown.{serves_of, word_given, event_of};
ghost use Rattle.safl_core.specs.States.{IsStateAfter, Leads, Recalls, calls_of};

use crate::event::Event;
use crate::mode::Act;
use crate::refresh::{refresh, renew};
use crate::spans::{Span, own_sites};
use crate::state::State;
use crate::step;
use safl_evaluate::{Args, Plan};
use safl_term::Checked;
use safl_word::Word;

/// Fires an enabled event. Modes, stages and the results of partial evaluation become those of the next state. Returns
/// the sites that may now be wanted with other words than before.
pub fn fire(c: &Checked, plan: &Plan, opening: &Args, state: &mut State, e: Event) -> Span
    requires kept { (n : ℕ) × IsStateAfter c.now opening.now n state.old }
    requires plan { IsPlan c.now.program plan.now (length state.old.kept.items) }
    requires recalls { (u : ℕ) → Recalls c.now.program plan.now state.old u }
    requires can { core.Enabled c.now.program opening.now (calls_of state.old) (event_of e) }
    ensures leads { Leads c.now opening.now (event_of e) result state.old state.new }
    ensures recalls { (u : ℕ) → Recalls c.now.program plan.now state.new u }
    ensures cells { length state.new.kept.items ≡ length state.old.kept.items }
{
    match e {
        Event::Accept(k) => accept(c, plan, opening, state, k),
        Event::Finish(f) => finish(c, plan, opening, state, f),
        Event::Return(k) => give_back(c, plan, opening, state, k),
        Event::Loop(h) => loop_into(c, plan, opening, state, h),
    }
}

// Fires the acceptance of a site's call.
fn accept(c: &Checked, plan: &Plan, opening: &Args, state: &mut State, k: u32) -> Span
    requires kept { (n : ℕ) × IsStateAfter c.now opening.now n state.old }
    requires plan { IsPlan c.now.program plan.now (length state.old.kept.items) }
    requires recalls { (u : ℕ) → Recalls c.now.program plan.now state.old u }
    requires can { core.Enabled c.now.program opening.now (calls_of state.old) (core.Accept k) }
    ensures leads { Leads c.now opening.now (core.Accept k) result state.old state.new }
    ensures recalls { (u : ℕ) → Recalls c.now.program plan.now state.new u }
    ensures cells { length state.new.kept.items ≡ length state.old.kept.items }
{
    step::accept(c, opening, state, k);
    let unit = c.unit_for(k);
    let own = own_sites(c, unit);
    refresh(c, plan, state, unit, own);
    own
}

// Fires the end of a function.
fn finish(c: &Checked, plan: &Plan, opening: &Args, state: &mut State, f: u32) -> Span
    requires kept { (n : ℕ) × IsStateAfter c.now opening.now n state.old }
    requires plan { IsPlan c.now.program plan.now (length state.old.kept.items) }
    requires recalls { (u : ℕ) → Recalls c.now.program plan.now state.old u }
    requires can { core.Enabled c.now.program opening.now (calls_of state.old) (core.Finish f) }
    ensures leads { Leads c.now opening.now (core.Finish f) result state.old state.new }
    ensures recalls { (u : ℕ) → Recalls c.now.program plan.now state.new u }
    ensures cells { length state.new.kept.items ≡ length state.old.kept.items }
{
    let unit = c.unit(f);
    let serves = served(state, unit);
    let Some(word) = ready(state, unit) else {
        unreachable!()
    };
    let own = step::end(c, state, unit, serves, word);
    refresh(c, plan, state, unit, own);
    own
}

// Fires the return of a word to a site. Of the body with this site, only what the word changes is evaluated again.
fn give_back(c: &Checked, plan: &Plan, opening: &Args, state: &mut State, k: u32) -> Span
    requires kept { (n : ℕ) × IsStateAfter c.now opening.now n state.old }
    requires plan { IsPlan c.now.program plan.now (length state.old.kept.items) }
    requires recalls { (u : ℕ) → Recalls c.now.program plan.now state.old u }
    requires can { core.Enabled c.now.program opening.now (calls_of state.old) (core.Return k) }
    ensures leads { Leads c.now opening.now (core.Return k) result state.old state.new }
    ensures recalls { (u : ℕ) → Recalls c.now.program plan.now state.new u }
    ensures cells { length state.new.kept.items ≡ length state.old.kept.items }
{
    let unit = c.unit_for(k);
    let Some(word) = delivered(state, unit) else {
        unreachable!()
    };
    step::give_back(c, state, k, word);
    if k == 0 {
        return Span::none();
    }
    let caller = c.caller(k);
    let waiting = c.unit(caller);
    renew(c, plan, state, waiting, k)
}

// Fires a loop of a unit to a function of its group.
fn loop_into(c: &Checked, plan: &Plan, opening: &Args, state: &mut State, h: u32) -> Span
    requires kept { (n : ℕ) × IsStateAfter c.now opening.now n state.old }
    requires plan { IsPlan c.now.program plan.now (length state.old.kept.items) }
    requires recalls { (u : ℕ) → Recalls c.now.program plan.now state.old u }
    requires can { core.Enabled c.now.program opening.now (calls_of state.old) (core.LoopInto h) }
    ensures leads { Leads c.now opening.now (core.LoopInto h) result state.old state.new }
    ensures recalls { (u : ℕ) → Recalls c.now.program plan.now state.new u }
    ensures cells { length state.new.kept.items ≡ length state.old.kept.items }
{
    let unit = c.unit(h);
    let own = step::restart(c, state, unit, h);
    refresh(c, plan, state, unit, own);
    own
}

// The site that a unit serves, or 0 if it serves none.
fn served(state: &State, u: u32) -> u32
    requires { u < length state.now.modes.items }
    ensures { result ≡ serves_of (unit_at state.now.modes.items u) }
{
    match state.modes[u as usize].act {
        Act::Idle => 0,
        Act::Runs(_, serves) => serves,
        Act::Delivers(serves, _) => serves,
    }
}

// The word that a unit's body comes to.
fn ready(state: &State, u: u32) -> Option<Word>
    requires { u < length state.now.answers.items }
    ensures { result ≡ plain.word_of (get_or state.now.answers.items u plain.NotYet) }
{
    state.answers[u as usize].word()
}

// The word that a unit delivers.
fn delivered(state: &State, u: u32) -> Option<Word>
    requires { u < length state.now.modes.items }
    ensures { result ≡ word_given (unit_at state.now.modes.items u) }
{
    match state.modes[u as usize].act {
        Act::Idle => None,
        Act::Runs(_, _) => None,
        Act::Delivers(_, word) => Some(word),
    }
}
