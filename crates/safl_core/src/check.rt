//! Tests of which events are enabled.

ghost use Rattle.std.specs.Prelude.{◌≡◌, ◌<◌, ◌≤◌, ◌&&◌, suc, length, get_or, None};
ghost use Rattle.safl_term.specs.Readiness as plain;
ghost use Rattle.safl_calls.specs.Machine as core;
ghost use Rattle.safl_core.specs.Modes.{unit_at, unit_at_site};
ghost use Rattle.safl_evaluate.specs.Stages.{stage_at};
ghost use Rattle.safl_core.specs.Testing as test;
ghost use Rattle.safl_evaluate.specs.Answers as told;

use crate::mode::{Act, Mode};
use safl_evaluate::{Answer, Stage, Want};
use safl_term::Checked;

/// Whether a site is unsent and wanted, and its unit is idle. The unit is looked at first: most are busy, so most sites
/// need not be read.
pub fn accepts(c: &Checked, modes: &[Mode], stages: &[Stage], wants: &[Want], k: u32) -> bool
    requires site { k ≤ c.now.program.sites }
    requires units { length modes.now ≡ c.now.program.functions }
    requires stages { length stages.now ≡ suc c.now.program.sites }
    requires wants { length wants.now ≡ suc c.now.program.sites }
    ensures { result ≡ ((core.is_unsent (stage_at stages.now k) && test.wanted_at wants.now k) && test.is_idle (unit_at_site c.now modes.now k)) }
{
    is_idle(modes, c.unit_for(k)) && waits(stages, wants, k)
}

/// Whether a site is unsent and wanted.
pub fn waits(stages: &[Stage], wants: &[Want], k: u32) -> bool
    requires stages { k < length stages.now }
    requires wants { k < length wants.now }
    ensures { result ≡ (core.is_unsent (stage_at stages.now k) && test.wanted_at wants.now k) }
{
    is_unsent(stages, k) && is_wanted(wants, k)
}

/// Whether unit `u` runs function `f`, and its body is ready.
pub fn finishes(modes: &[Mode], answers: &[Answer], u: u32, f: u32) -> bool
    requires units { u < length modes.now }
    requires answers { u < length answers.now }
    ensures { result ≡ (test.runs (unit_at modes.now u) f && told.is_ready (get_or answers.now u plain.NotYet)) }
{
    runs(modes, u, f) && is_ready(answers, u)
}

/// Whether a site is sent and its unit delivers a word to it. The site is looked at first: few are sent, so most units
/// need not be read.
pub fn returns(c: &Checked, modes: &[Mode], stages: &[Stage], k: u32) -> bool
    requires site { k ≤ c.now.program.sites }
    requires units { length modes.now ≡ c.now.program.functions }
    requires stages { length stages.now ≡ suc c.now.program.sites }
    ensures { result ≡ (test.is_sent (stage_at stages.now k) && test.delivers_to (unit_at_site c.now modes.now k) k) }
{
    is_sent(stages, k) && delivers(modes, c.unit_for(k), k)
}

// Whether unit `u` delivers a word to site `k`.
fn delivers(modes: &[Mode], u: u32, k: u32) -> bool
    requires { u < length modes.now }
    ensures { result ≡ test.delivers_to (unit_at modes.now u) k }
{
    match &modes[u as usize].act {
        Act::Idle => false,
        Act::Runs(_, _) => false,
        Act::Delivers(site, _) => *site == k,
    }
}

/// Whether the body of unit `u` comes to a tail call of function `h`.
pub fn loops(answers: &[Answer], u: u32, h: u32) -> bool
    requires { u < length answers.now }
    ensures { result ≡ told.loops_to (get_or answers.now u plain.NotYet) h }
{
    answers[u as usize].loops_to(h)
}

/// The site to which a unit delivers a word, if it delivers one.
pub fn delivered_to(modes: &[Mode], u: u32) -> Option<u32>
    requires { u < length modes.now }
    ensures { result ≡ test.delivered (unit_at modes.now u) }
{
    match &modes[u as usize].act {
        Act::Idle => None,
        Act::Runs(_, _) => None,
        Act::Delivers(site, _) => Some(*site),
    }
}

/// Whether a unit is idle.
pub fn is_idle(modes: &[Mode], u: u32) -> bool
    requires { u < length modes.now }
    ensures { result ≡ test.is_idle (unit_at modes.now u) }
{
    match &modes[u as usize].act {
        Act::Idle => true,
        Act::Runs(_, _) => false,
        Act::Delivers(_, _) => false,
    }
}

fn runs(modes: &[Mode], u: u32, f: u32) -> bool
    requires { u < length modes.now }
    ensures { result ≡ test.runs (unit_at modes.now u) f }
{
    match &modes[u as usize].act {
        Act::Idle => false,
        Act::Runs(member, _) => *member == f,
        Act::Delivers(_, _) => false,
    }
}

fn is_ready(answers: &[Answer], u: u32) -> bool
    requires { u < length answers.now }
    ensures { result ≡ told.is_ready (get_or answers.now u plain.NotYet) }
{
    answers[u as usize].is_ready()
}

fn is_unsent(stages: &[Stage], k: u32) -> bool
    requires { k < length stages.now }
    ensures { result ≡ core.is_unsent (stage_at stages.now k) }
{
    match stages[k as usize] {
        Stage::Unsent => true,
        Stage::Sent => false,
        Stage::Returned(_) => false,
    }
}

fn is_sent(stages: &[Stage], k: u32) -> bool
    requires { k < length stages.now }
    ensures { result ≡ test.is_sent (stage_at stages.now k) }
{
    match stages[k as usize] {
        Stage::Unsent => false,
        Stage::Sent => true,
        Stage::Returned(_) => false,
    }
}

// Whether a site is wanted. Site 0, the call of main from outside, always is.
fn is_wanted(wants: &[Want], k: u32) -> bool
    requires { k < length wants.now }
    ensures { result ≡ test.wanted_at wants.now k }
{
    if k == 0 {
        return true;
    }
    wants[k as usize].is_wanted()
}
