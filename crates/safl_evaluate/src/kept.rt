//! What is kept of each node between two partial evaluations.

ghost use Rattle.std.specs.Prelude.{◌≡◌, ◌<◌, cond, Some, None, length, slice_set};
ghost use Rattle.safl_evaluate.specs.Keeping.{cell, word_kept, is_open, opened_with};
ghost use Rattle.safl_term.specs.Readiness.{word_of};
ghost use Rattle.safl_evaluate.specs.Finding.{cell_of, is_ready, if_open, if_ready, nothing};

use crate::answer::Answer;
use safl_word::Word;

/// What was found of a term when it was last looked at. `Ready`: its word. `Open`: no word yet, but the condition of
/// this if or the bindings of this let are ready, so what is below was looked at. `Shut`: neither.
#[derive(Clone, Copy)]
pub enum Kept {
    Ready(Word),
    Open,
    Shut,
}

/// What is found of a term. Its word, if it has one, was written in place.
#[derive(Clone, Copy)]
pub enum Found {
    Ready,
    Open,
    Shut,
}

/// What is found of an if or a let whose condition or bindings are ready.
pub fn opened(found: bool) -> Found
    ensures { result ≡ if_open found }
{
    if found { Found::Ready } else { Found::Open }
}

/// What is found of a term that is no open if or let.
pub fn ready(found: bool) -> Found
    ensures { result ≡ if_ready found }
{
    if found { Found::Ready } else { Found::Shut }
}

/// Writes the word that is kept at a place, and says whether there is one.
pub fn recall(kept: &[Kept], at: usize, word: &mut Word) -> bool
    requires { at < length kept.now }
    ensures { cond result (Some word.new) None ≡ word_kept (cell kept.now at) }
{
    match &kept[at] {
        Kept::Ready(found) => {
            *word = *found;
            true
        }
        Kept::Open => false,
        Kept::Shut => false,
    }
}

/// Keeps what was found of the term at a place, and says whether it has a word.
pub fn keep(kept: &mut [Kept], at: usize, found: Found, word: &Word) -> bool
    requires { at < length kept.old }
    ensures kept { kept.new ≡ slice_set kept.old at (cell_of found word.now) }
    ensures ready { result ≡ is_ready found }
{
    match found {
        Found::Ready => {
            kept[at] = Kept::Ready(*word);
            true
        }
        Found::Open => {
            kept[at] = Kept::Open;
            false
        }
        Found::Shut => {
            kept[at] = Kept::Shut;
            false
        }
    }
}

/// Whether the if or the let at a place is open.
pub fn is_open_at(kept: &[Kept], at: usize) -> bool
    requires { at < length kept.now }
    ensures { result ≡ is_open (cell kept.now at) }
{
    match &kept[at] {
        Kept::Ready(_) => true,
        Kept::Open => true,
        Kept::Shut => false,
    }
}

/// Keeps what an open if or let comes to.
pub fn keep_told(kept: &mut [Kept], at: usize, told: &Answer)
    requires { at < length kept.old }
    ensures { kept.new ≡ slice_set kept.old at (opened_with (word_of told.now)) }
{
    match told.word() {
        Some(word) => kept[at] = Kept::Ready(word),
        None => kept[at] = Kept::Open,
    }
}

/// Keeps that nothing was found.
pub fn shut(kept: &mut [Kept], at: usize)
    requires { at < length kept.old }
    ensures { kept.new ≡ slice_set kept.old at nothing }
{
    kept[at] = Kept::Shut;
}
