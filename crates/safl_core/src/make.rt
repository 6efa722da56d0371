//! The parts of a machine at its start.

ghost use Rattle.std.specs.Prelude.{◌≡◌, ◌↔◌, ℕ, IsTrue, IfOk, length, get_or, None};
ghost use Rattle.safl_term.specs.Readiness as plain;
ghost use Rattle.safl_calls.specs.Machine as core;
ghost use Rattle.safl_core.specs.Called.{AreCalled};
ghost use Rattle.safl_word.specs.Words.{widths};
ghost use Rattle.safl_core.specs.Modes.{unit_at};
ghost use Rattle.safl_evaluate.specs.Stages.{stage_at};

use crate::mode::Mode;
use safl_evaluate::{Answer, Kept, Stage, Want};
use safl_term::Checked;
use safl_word::Word;
use std::alloc::{AllocError, Global};

/// Whether there are as many words as main has parameters, each of its parameter's width.
pub fn fits(c: &Checked, args: &[Word]) -> bool
    ensures { IsTrue result ↔ (widths args.now ≡ c.now.program.params c.now.program.main) }
{
    let main = c.main();
    let count = c.params(main);
    if args.len() != count as usize {
        return false;
    }
    for i in 0..count {
        if args[i as usize].width() != c.param_width(main, i) {
            return false;
        }
    }
    true
}

/// `count` idle units.
pub fn idle(alloc: Global, count: usize) -> Result<Vec<Mode>, AllocError>
    ensures count { IfOk result (λ v. length v.items ≡ count) }
    ensures idle { IfOk result (λ v. (u : ℕ) → unit_at v.items u ≡ core.Idle) }
{
    let mut modes = Vec::new(alloc);
    for _made in 0..count {
        modes.push(Mode::idle())?;
    }
    Ok(modes)
}

/// `count` bodies that have come to nothing yet.
pub fn unanswered(alloc: Global, count: usize) -> Result<Vec<Answer>, AllocError>
    ensures count { IfOk result (λ v. length v.items ≡ count) }
    ensures none { IfOk result (λ v. (u : ℕ) → get_or v.items u plain.NotYet ≡ plain.NotYet) }
{
    let mut answers = Vec::new(alloc);
    for _made in 0..count {
        answers.push(Answer::new())?;
    }
    Ok(answers)
}

/// `count` sites that are not wanted.
pub fn unwanted(alloc: Global, count: usize) -> Result<Vec<Want>, AllocError>
    ensures count { IfOk result (λ v. length v.items ≡ count) }
    ensures none { IfOk result (λ v. (k : ℕ) → get_or v.items k None ≡ None) }
{
    let mut wants = Vec::new(alloc);
    for _made in 0..count {
        wants.push(Want::new())?;
    }
    Ok(wants)
}

/// `count` unsent sites.
pub fn unsent(alloc: Global, count: usize) -> Result<Vec<Stage>, AllocError>
    ensures count { IfOk result (λ v. length v.items ≡ count) }
    ensures unsent { IfOk result (λ v. (k : ℕ) → stage_at v.items k ≡ plain.Unsent) }
{
    let mut stages = Vec::new(alloc);
    for _made in 0..count {
        stages.push(Stage::Unsent)?;
    }
    Ok(stages)
}

/// For each site the unit that it calls.
pub fn called(alloc: Global, c: &Checked) -> Result<Vec<u32>, AllocError>
    ensures { IfOk result (λ v. AreCalled c.now.program v.items) }
{
    let mut units = Vec::new(alloc);
    for k in 0..c.sites() + 1 {
        units.push(c.unit_for(k))?;
    }
    Ok(units)
}

/// Room for `count` words.
pub fn room(alloc: Global, count: usize) -> Result<Vec<Word>, AllocError>
    ensures { IfOk result (λ v. length v.items ≡ count) }
{
    let mut words = Vec::new(alloc);
    for _made in 0..count {
        words.push(Word::from_parts(1, 0))?;
    }
    Ok(words)
}

/// `count` nodes of which nothing is kept.
pub fn nothing_kept(alloc: Global, count: usize) -> Result<Vec<Kept>, AllocError>
    ensures { IfOk result (λ v. length v.items ≡ count) }
{
    let mut kept = Vec::new(alloc);
    for _made in 0..count {
        kept.push(Kept::Shut)?;
    }
    Ok(kept)
}
