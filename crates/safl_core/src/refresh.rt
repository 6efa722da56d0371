//! Evaluates the body of a unit again after an event.

ghost use Rattle.std.specs.Prelude.{◌≡◌, ℕ, suc, ◌<◌, ◌≤◌, List, length, Some, IfSome, IfNone};
ghost use Rattle.safl_term.specs.Program.{Program};
ghost use Rattle.safl_calls.specs.Machine as core;
ghost use Rattle.safl_core.specs.Modes.{unit_at};
ghost use Rattle.safl_evaluate.specs.Laying.{IsPlan};
ghost use Rattle.safl_core.specs.Spans.{IsSpan, InSpan};
ghost use Rattle.safl_evaluate.specs.Asking.{IsAsked};
ghost use Rattle.safl_core.specs.States.{CanRefresh, CanRenew, Clears, Refreshes, Recalls, Evaluates};

use crate::mode::{Act, Mode};
use crate::spans::Span;
use crate::state::State;
use safl_evaluate::args::fill;
use safl_evaluate::evaluate::{Facts, Spot, evaluate};
use safl_evaluate::{Answer, Args, Plan, Want, Wants};
use safl_term::Checked;
use safl_word::Word;

// Forgets the words with which the sites of a span were wanted.
fn clear(asks: &mut [Want], own: Span)
    requires { own.end ≤ length asks.old }
    ensures { (C : Program) (u : ℕ) → IsSpan C u own → Clears C u asks.old asks.new }
{
    for k in own.first..own.end {
        asks[k as usize].forget();
    }
}

/// Evaluates the body of a unit from the beginning: what it comes to, and the words with which it wants its sites, which
/// are those of the span `own`. No others may be wanted otherwise than before. What is kept of other units stays.
pub fn refresh(c: &Checked, plan: &Plan, state: &mut State, u: u32, own: Span)
    requires can { CanRefresh c.now u state.old }
    requires plan { IsPlan c.now.program plan.now (length state.old.kept.items) }
    requires own { IsSpan c.now.program u own }
    ensures refreshes { Refreshes c.now.program u own state.old state.new }
    ensures recalls { (v : ℕ) → ((v ≡ u → ⊥) → Recalls c.now.program plan.now state.old v) → Recalls c.now.program plan.now state.new v }
    ensures cells { length state.new.kept.items ≡ length state.old.kept.items }
{
    clear(&mut state.wants.each, own);
    evaluated(c, plan, state, u, None);
}

/// Evaluates those parts of a unit's body that may have changed since its site `k` returned. Returns sites that include
/// all that may be wanted otherwise than before.
pub fn renew(c: &Checked, plan: &Plan, state: &mut State, u: u32, k: u32) -> Span
    requires can { CanRefresh c.now u state.old }
    requires plan { IsPlan c.now.program plan.now (length state.old.kept.items) }
    requires stood { CanRenew c.now.program plan.now (Some k) state.old u }
    ensures refreshes { Refreshes c.now.program u result state.old state.new }
    ensures recalls { (v : ℕ) → ((v ≡ u → ⊥) → Recalls c.now.program plan.now state.old v) → Recalls c.now.program plan.now state.new v }
    ensures cells { length state.new.kept.items ≡ length state.old.kept.items }
{
    state.wants.begin();
    evaluated(c, plan, state, u, Some(k));
    between(c, &state.wants)
}

// The sites from the first to the last one that was asked for.
fn between(c: &Checked, wants: &Wants) -> Span
    ensures most { result.end ≤ suc c.now.program.sites }
    ensures all { (k : ℕ) → k ≤ c.now.program.sites → IsAsked wants.now k → InSpan result k }
{
    Span {
        first: wants.first,
        end: wants.last.min(c.sites()) + 1,
    }
}

// Notes what a unit's body comes to, and the words with which it wants its sites. `news` is the site that has returned
// since the last evaluation; None evaluates everything.
fn evaluated(c: &Checked, plan: &Plan, state: &mut State, u: u32, news: Option<u32>)
    requires can { CanRefresh c.now u state.old }
    requires plan { IsPlan c.now.program plan.now (length state.old.kept.items) }
    requires stood { CanRenew c.now.program plan.now news state.old u }
    ensures { Evaluates c.now.program plan.now u state.old state.new }
{
    match running(&state.modes, u) {
        Some((f, args)) => {
            let facts = Facts {
                stages: &state.stages,
                places: &plan.places,
            };
            let slots = fill(&mut state.env, args.words());
            let at = plan.bodies[f as usize];
            evaluate(
                &facts,
                &mut state.wants,
                &mut state.env,
                &mut state.kept,
                Spot { slots, at, news },
                c.body(f),
                &mut state.answers[u as usize],
            )
        }
        None => state.answers[u as usize].settle(None),
    }
}

// The function that a unit runs, with its arguments.
fn running(modes: &[Mode], u: u32) -> Option<(u32, &Args)>
    requires { u < length modes.now }
    ensures runs { IfSome result (λ r. (k : ℕ) × (unit_at modes.now u ≡ core.Runs r.0 k r.1.now)) }
    ensures none { IfNone result ((f k : ℕ) (ws : List Word) → unit_at modes.now u ≡ core.Runs f k ws → ⊥) }
{
    let mode = &modes[u as usize];
    match mode.act {
        Act::Idle => None,
        Act::Runs(f, _) => Some((f, &mode.args)),
        Act::Delivers(_, _) => None,
    }
}
