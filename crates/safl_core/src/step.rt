//! What events do to units and sites.

ghost use Rattle.std.specs.Prelude.{◌≡◌, ℕ, suc, ◌<◌, ◌≤◌, List, None, Some, IsSome, get_or, length};
ghost use Rattle.safl_term.specs.Readiness as plain;
ghost use Rattle.safl_word.specs.Words.{Word as a_word};
ghost use Rattle.safl_calls.specs.Machine as core;
ghost use Rattle.safl_core.specs.Modes.{unit_at};
ghost use Rattle.safl_evaluate.specs.Answers.{args_given};
ghost use Rattle.safl_evaluate.specs.Stages.{stage_at};
ghost use Rattle.safl_core.specs.Spans.{IsSpan};
ghost use Rattle.safl_core.specs.States.{IsSized, IsStateAfter, Restarts, Steps, calls_of, ended_with};

use crate::spans::{Span, own_sites};
use crate::state::State;
use safl_evaluate::{Args, Stage, Want};
use safl_term::Checked;
use safl_word::Word;

/// A call is accepted: the site is sent, and its unit runs the called function for it.
pub fn accept(c: &Checked, opening: &Args, state: &mut State, k: u32)
    requires kept { (n : ℕ) × IsStateAfter c.now opening.now n state.old }
    requires can { core.Enabled c.now.program opening.now (calls_of state.old) (core.Accept k) }
    ensures { Steps c.now.program state.old state.new (core.fire c.now.program opening.now (calls_of state.old) (core.Accept k)) }
{
    let args = given(opening, &state.wants.each, k);
    state.modes[c.unit_for(k) as usize].run(c.callee(k), k, args.words());
    state.stages[k as usize] = Stage::Sent;
}

// The arguments of a site's call: main's for site 0, and else those with which the site is wanted.
fn given<'x>(opening: &'x Args, wants: &'x [Want], k: u32) -> &'x Args
    requires within { k < length wants.now }
    requires some { (k ≡ 0 → ⊥) → IsSome (get_or wants.now k None) }
    ensures opening { k ≡ 0 → result.now ≡ opening.now }
    ensures wanted { (k ≡ 0 → ⊥) → get_or wants.now k None ≡ Some result.now }
{
    if k == 0 {
        return opening;
    }
    match wants[k as usize].args() {
        Some(args) => args,
        None => unreachable!(),
    }
}

/// A unit ends its body: it delivers this word to a site, and the sites of its members are unsent again. Returns these
/// sites.
pub fn end(c: &Checked, state: &mut State, u: u32, site: u32, word: Word) -> Span
    requires unit { u < c.now.program.functions }
    requires sized { IsSized c.now.program state.old }
    ensures steps { Steps c.now.program state.old state.new (ended_with c.now.program state.old u (core.Delivers site word)) }
    ensures own { IsSpan c.now.program u result }
{
    state.modes[u as usize].deliver(site, word);
    end_sites(c, &mut state.stages, u)
}

/// A running unit loops: it goes on with function `h` and the arguments of its body's tail call, for the same site, and
/// the sites of its members are unsent again. Returns these sites.
pub fn restart(c: &Checked, state: &mut State, u: u32, h: u32) -> Span
    requires unit { u < c.now.program.functions }
    requires sized { IsSized c.now.program state.old }
    requires runs { (f : ℕ) × (k : ℕ) × (ws : List a_word) × (unit_at state.old.modes.items u ≡ core.Runs f k ws) }
    requires passes { IsSome (args_given (get_or state.old.answers.items u plain.NotYet)) }
    ensures restarts { Restarts c.now.program u h state.old state.new }
    ensures own { IsSpan c.now.program u result }
{
    let Some(args) = state.answers[u as usize].passed() else {
        unreachable!()
    };
    state.modes[u as usize].enter(h, args.words());
    end_sites(c, &mut state.stages, u)
}

// Makes the sites of a unit's members unsent again, and returns them.
fn end_sites(c: &Checked, stages: &mut [Stage], u: u32) -> Span
    requires unit { u < c.now.program.functions }
    requires sized { length stages.old ≡ suc c.now.program.sites }
    ensures ended { (k : ℕ) → stage_at stages.new k ≡ core.ended c.now.program u (stage_at stages.old) k }
    ensures own { IsSpan c.now.program u result }
{
    let own = own_sites(c, u);
    for k in own.first..own.end {
        stages[k as usize] = Stage::Unsent;
    }
    own
}

/// A site gets its word, and its unit becomes idle.
pub fn give_back(c: &Checked, state: &mut State, k: u32, word: Word)
    requires site { k ≤ c.now.program.sites }
    requires sized { IsSized c.now.program state.old }
    ensures { Steps c.now.program state.old state.new (core.give_back c.now.program (calls_of state.old) k (core.Delivers k word)) }
{
    state.modes[c.unit_for(k) as usize].rest();
    state.stages[k as usize] = Stage::Returned(word);
}
