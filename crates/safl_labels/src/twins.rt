//! Whether two terms take the same time, by recursion over both.

ghost use Rattle.std.specs.Prelude.{◌≡◌, List, Bool, true, IfOk, IfSome};
ghost use Rattle.safl_calls.specs.Labels.{Labels as CallLabels, IsPlainTerm, label};
ghost use Rattle.safl_term.specs.Terms.{Const, Var, Op, Let, Call, Loop};
ghost use Rattle.safl_term.specs.Tree.{shown_term, shown_terms};
ghost use Rattle.safl_labels.specs.Likeness.{IsLike, do_fit, passed_of};
ghost use Rattle.safl_labels.specs.Shown.{shown_labels};
ghost use Rattle.safl_labels.specs.Walks.{AreLike, AreAllLike, shown_if};

use crate::labels::Labels;
use crate::likeness::{Likeness, are_public, word_if};
use crate::notes::Notes;
use crate::plain::{is_plain, reads_secret};
use safl_term::{Node, Term, top};
use safl_word::{NoMemory, Primitive, Word};
use std::alloc::Global;

/// What stays the same on a walk over two terms: the labels, which slots are public, and whether the two terms are one and
/// the same.
#[derive(Clone, Copy)]
pub struct Walk<'a> {
    pub alloc: Global,
    pub labels: &'a Labels,
    pub slots: &'a [bool],
    pub is_one: bool,
}

/// The parts of an if.
#[derive(Clone, Copy)]
pub struct Choice<'a> {
    pub condition: &'a Term,
    pub first: &'a Term,
    pub second: &'a Term,
}

/// Which of two ifs is opened.
#[derive(Clone, Copy)]
enum Side {
    Left,
    Right,
    Both,
}

/// How far two terms are alike.
#[cycle(twins)]
pub fn compare(walk: &Walk, notes: &mut Notes, t: &Term, u: &Term) -> Result<Likeness, NoMemory>
    ensures { IfOk result (AreLike walk.now (shown_term t.now) (shown_term u.now)) }
{
    let found = compare_shapes(walk, notes, t, u)?;
    Ok(found.or_time(are_plain(t, u)))
}

// Compares two terms by their outermost nodes.
#[cycle(twins)]
fn compare_shapes(walk: &Walk, notes: &mut Notes, t: &Term, u: &Term) -> Result<Likeness, NoMemory>
    ensures { IfOk result (AreLike walk.now (shown_term t.now) (shown_term u.now)) }
{
    match top(u) {
        Node::If(condition, first, second) => {
            let other = Choice {
                condition,
                first,
                second,
            };
            compare_with_choice(walk, notes, t, u, other)
        }
        _ => match top(t) {
            Node::If(condition, first, second) => {
                let choice = Choice {
                    condition,
                    first,
                    second,
                };
                compare_left(walk, notes, choice, u)
            }
            Node::Const(word) => Ok(compare_word(word, u)),
            Node::Var(i) => Ok(compare_slot(walk.slots, i, u)),
            Node::Op(o, ts) => compare_parts(walk, notes, o, ts, u),
            Node::Let(_, ts, body) => compare_lets(walk, notes, ts, body, u),
            Node::Call(f, k, ts) => compare_calls(walk, notes, f, k, ts, u),
            Node::Loop(h, ts) => compare_loops(walk, notes, h, ts, u),
        },
    }
}

// Compares with an if.
#[cycle(twins)]
fn compare_with_choice(
    walk: &Walk,
    notes: &mut Notes,
    t: &Term,
    u: &Term,
    other: Choice,
) -> Result<Likeness, NoMemory>
    requires { shown_term u.now ≡ shown_if other }
    ensures { IfOk result (AreLike walk.now (shown_term t.now) (shown_term u.now)) }
{
    match top(t) {
        Node::If(condition, first, second) => {
            let choice = Choice {
                condition,
                first,
                second,
            };
            match open_side(walk, choice.condition, other.condition) {
                Side::Left => compare_left(walk, notes, choice, u),
                Side::Right => compare_right(walk, notes, t, other),
                Side::Both => compare_choices(walk, notes, choice, other),
            }
        }
        _ => compare_right(walk, notes, t, other),
    }
}

// The side whose if is opened: that of a secret condition, where the other one is public.
fn open_side(walk: &Walk, condition: &Term, other: &Term) -> Side {
    if walk.is_one {
        return Side::Both;
    }
    let left = reads_secret(walk.slots, condition);
    let right = reads_secret(walk.slots, other);
    if left && !right && is_plain(condition) {
        return Side::Left;
    }
    if right && !left && is_plain(other) {
        return Side::Right;
    }
    Side::Both
}

// An if whose condition is plain takes the time of its branches.
#[cycle(twins)]
fn compare_left(
    walk: &Walk,
    notes: &mut Notes,
    choice: Choice,
    u: &Term,
) -> Result<Likeness, NoMemory>
    ensures { IfOk result (AreLike walk.now (shown_if choice.entry) (shown_term u.now)) }
{
    if !is_plain(choice.condition) {
        return Ok(Likeness::Apart);
    }
    let first = compare(walk, notes, choice.first, u)?;
    let second = compare(walk, notes, choice.second, u)?;
    Ok(first.least(second))
}

#[cycle(twins)]
fn compare_right(
    walk: &Walk,
    notes: &mut Notes,
    t: &Term,
    choice: Choice,
) -> Result<Likeness, NoMemory>
    ensures { IfOk result (AreLike walk.now (shown_term t.now) (shown_if choice.entry)) }
{
    if !is_plain(choice.condition) {
        return Ok(Likeness::Apart);
    }
    let first = compare(walk, notes, t, choice.first)?;
    let second = compare(walk, notes, t, choice.second)?;
    Ok(first.least(second))
}

// Public conditions select the same branch, and others may select any two.
#[cycle(twins)]
fn compare_choices(
    walk: &Walk,
    notes: &mut Notes,
    choice: Choice,
    other: Choice,
) -> Result<Likeness, NoMemory>
    ensures { IfOk result (AreLike walk.now (shown_if choice.entry) (shown_if other.entry)) }
{
    let number = count_branch(walk, notes);
    let condition = compare(walk, notes, choice.condition, other.condition)?;
    let first = compare(walk, notes, choice.first, other.first)?;
    let second = compare(walk, notes, choice.second, other.second)?;
    let same = first.least(second);
    match condition {
        Likeness::Apart => Ok(Likeness::Apart),
        Likeness::SameWord => Ok(same),
        Likeness::SameTime => {
            let before = notes.choose(walk.slots, choice.condition);
            let across = compare_across(walk, notes, choice, other)?;
            notes.choose_again(before);
            if walk.is_one && across.is_apart() {
                notes.block(walk.slots, number, choice.condition);
            }
            Ok(same.least(across))
        }
    }
}

fn count_branch(walk: &Walk, notes: &mut Notes) -> u32 {
    if walk.is_one { notes.branch() } else { 0 }
}

// Compares the first branch of each if with the second one of the other.
#[cycle(twins)]
fn compare_across(
    walk: &Walk,
    notes: &mut Notes,
    choice: Choice,
    other: Choice,
) -> Result<Likeness, NoMemory>
    ensures first { IfOk result (AreLike walk.now (shown_term choice.entry.first.now) (shown_term other.entry.second.now)) }
    ensures second { IfOk result (AreLike walk.now (shown_term choice.entry.second.now) (shown_term other.entry.first.now)) }
{
    if are_plain(choice.first, other.second) && are_plain(choice.second, other.first) {
        return Ok(Likeness::SameTime);
    }
    let inner = Walk {
        alloc: walk.alloc,
        labels: walk.labels,
        slots: walk.slots,
        is_one: false,
    };
    let first = compare(&inner, notes, choice.first, other.second)?;
    let second = compare(&inner, notes, choice.second, other.first)?;
    Ok(first.least(second))
}

fn are_plain(t: &Term, u: &Term) -> bool
    ensures first { result ≡ true → IsPlainTerm (shown_term t.now) }
    ensures second { result ≡ true → IsPlainTerm (shown_term u.now) }
{
    is_plain(t) && is_plain(u)
}

fn compare_word(word: Word, u: &Term) -> Likeness
    ensures { (L : CallLabels) → (ls : List Bool) → IsLike L ls (Const (word)) (shown_term u.now) result }
{
    match top(u) {
        Node::Const(other) => {
            if word.width() == other.width() && word.bits() == other.bits() {
                Likeness::SameWord
            } else {
                Likeness::Apart
            }
        }
        _ => Likeness::Apart,
    }
}

fn compare_slot(slots: &[bool], i: u32, u: &Term) -> Likeness
    ensures { (L : CallLabels) → IsLike L slots.now (Var i) (shown_term u.now) result }
{
    match top(u) {
        Node::Var(j) => {
            if i == j {
                word_if(is_public(slots, i))
            } else {
                Likeness::Apart
            }
        }
        _ => Likeness::Apart,
    }
}

fn is_public(slots: &[bool], i: u32) -> bool
    ensures { result ≡ label slots.now i }
{
    match slots.get(i as usize) {
        Some(label) => *label,
        None => false,
    }
}

#[cycle(twins)]
fn compare_parts(
    walk: &Walk,
    notes: &mut Notes,
    o: Primitive,
    ts: &[Term],
    u: &Term,
) -> Result<Likeness, NoMemory>
    ensures { IfOk result (AreLike walk.now (Op o (shown_terms ts.now)) (shown_term u.now)) }
{
    let Node::Op(p, us) = top(u) else {
        return Ok(Likeness::Apart);
    };
    if !are_same(o, p) {
        return Ok(Likeness::Apart);
    }
    match compare_all(walk, notes, ts, us)? {
        Some(found) => Ok(word_if(are_public(&found))),
        None => Ok(Likeness::Apart),
    }
}

fn are_same(o: Primitive, p: Primitive) -> bool
    ensures { result ≡ true → o ≡ p }
{
    o == p
}

#[cycle(twins)]
fn compare_lets(
    walk: &Walk,
    notes: &mut Notes,
    ts: &[Term],
    body: &Term,
    u: &Term,
) -> Result<Likeness, NoMemory>
    ensures { IfOk result (AreLike walk.now (Let (shown_terms ts.now) (shown_term body.now)) (shown_term u.now)) }
{
    let Node::Let(_, us, other) = top(u) else {
        return Ok(Likeness::Apart);
    };
    let Some(bound) = compare_all(walk, notes, ts, us)? else {
        return Ok(Likeness::Apart);
    };
    notes.bind(walk.slots, ts)?;
    let mut slots = walk.slots.to_vec(walk.alloc)?;
    slots.extend_from_slice(&bound)?;
    let inner = Walk {
        alloc: walk.alloc,
        labels: walk.labels,
        slots: &slots,
        is_one: walk.is_one,
    };
    compare(&inner, notes, body, other)
}

#[cycle(twins)]
fn compare_calls(
    walk: &Walk,
    notes: &mut Notes,
    f: u32,
    k: u32,
    ts: &[Term],
    u: &Term,
) -> Result<Likeness, NoMemory>
    ensures { IfOk result (AreLike walk.now (Call f k (shown_terms ts.now)) (shown_term u.now)) }
{
    let Node::Call(g, l, us) = top(u) else {
        return Ok(Likeness::Apart);
    };
    if f != g || k != l {
        return Ok(Likeness::Apart);
    }
    match compare_all(walk, notes, ts, us)? {
        Some(found) => pass(walk, notes, f, ts, &found),
        None => Ok(Likeness::Apart),
    }
}

#[cycle(twins)]
fn compare_loops(
    walk: &Walk,
    notes: &mut Notes,
    h: u32,
    ts: &[Term],
    u: &Term,
) -> Result<Likeness, NoMemory>
    ensures { IfOk result (AreLike walk.now (Loop h (shown_terms ts.now)) (shown_term u.now)) }
{
    let Node::Loop(g, us) = top(u) else {
        return Ok(Likeness::Apart);
    };
    if h != g {
        return Ok(Likeness::Apart);
    }
    match compare_all(walk, notes, ts, us)? {
        Some(found) => pass(walk, notes, h, ts, &found),
        None => Ok(Likeness::Apart),
    }
}

// What two calls of a function have in common whose arguments are alike as far as `found` says.
fn pass(
    walk: &Walk,
    notes: &mut Notes,
    f: u32,
    args: &[Term],
    found: &[bool],
) -> Result<Likeness, NoMemory>
    ensures { IfOk result (λ m. m ≡ passed_of (shown_labels walk.now.labels.now) f found.now) }
{
    if fits(found, walk.labels.of_params(f)) {
        return Ok(word_if(walk.labels.of_result(f)));
    }
    notes.pass(walk.labels, walk.slots, f, args, found)?;
    Ok(Likeness::Apart)
}

// Whether there is a label for each parameter, and what is passed to a public one is public.
fn fits(found: &[bool], params: &[bool]) -> bool
    ensures { result ≡ do_fit found.now params.now }
{
    match found.split_first() {
        Some((first, rest)) => match params.split_first() {
            Some((wanted, others)) => (*first || !*wanted) && fits(rest, others),
            None => false,
        },
        None => params.is_empty(),
    }
}

// Compares the terms of two lists one by one. None if two of them are apart.
#[cycle(twins)]
fn compare_all(
    walk: &Walk,
    notes: &mut Notes,
    ts: &[Term],
    us: &[Term],
) -> Result<Option<Vec<bool>>, NoMemory>
    ensures { IfOk result (λ o. IfSome o (λ found. AreAllLike walk.now (shown_terms ts.now) (shown_terms us.now) found.items)) }
{
    if ts.len() != us.len() {
        return Ok(None);
    }
    let mut found = Vec::new(walk.alloc);
    let mut is_apart = false;
    for i in 0..ts.len() {
        let next = compare(walk, notes, &ts[i], &us[i])?;
        is_apart = is_apart || next.is_apart();
        found.push(next.is_word())?;
    }
    if is_apart {
        return Ok(None);
    }
    Ok(Some(found))
}
