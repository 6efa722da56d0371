//! Places: where the nodes of a body lie in a table.

ghost use Rattle.std.specs.Prelude.{◌≡◌, ◌+◌, ◌<◌, ◌≤◌, ◌&&◌, IfOk, length, true, false};
ghost use Rattle.safl_word.specs.Limits.{nodes_max};
ghost use Rattle.safl_term.specs.Sizes.{nodes, nodes_in};
ghost use Rattle.safl_term.specs.Tree.{shown_term, shown_terms};
ghost use Rattle.safl_evaluate.specs.Laying.{IsPlace, IsRoom, Laid, LaidIn, LaidBelow, SameOutside, Covers};
ghost use Rattle.safl_evaluate.specs.Laying.{IsPlan};

use safl_term::{Checked, Node, Term, top};
use safl_word::limits::NODES_MAX;
use std::alloc::{AllocError, Global};

/// Of a term: the place after its nodes, two numbers between which all its sites are, and whether it is a plain term and
/// whether it is a plain body.
#[derive(Clone, Copy)]
pub struct Place {
    pub next: usize,
    pub first: u32,
    pub last: u32,
    pub is_plain: bool,
    pub is_plain_body: bool,
}

/// The places of the nodes of all bodies, and for each function the place of its body.
#[derive(Drop)]
pub struct Plan {
    pub places: Vec<Place>,
    pub bodies: Vec<usize>,
}

/// The plan of a program. Its bodies lie one after the other in 50,000 places.
pub fn planned(alloc: Global, c: &Checked) -> Result<Plan, AllocError>
    ensures { IfOk result (λ plan. IsPlan c.now.program plan nodes_max) }
{
    let blank = empty(0);
    let mut places = vec![in alloc; blank; NODES_MAX as usize]?;
    let mut bodies = vec![in alloc; 0; c.functions() as usize]?;
    let mut at = 0;
    for f in 0..c.functions() {
        bodies[f as usize] = at;
        at = lay(c.body(f), at, &mut places).next;
    }
    Ok(Plan { places, bodies })
}

/// Lays out the nodes of a term from `at` on: first the term's own, then those of its parts in order, but the bindings
/// of a let after its body. Returns the place of the term itself.
#[cycle(lay)]
pub fn lay(t: &Term, at: usize, places: &mut [Place]) -> Place
    requires { at + nodes (shown_term t.now) ≤ length places.old }
    ensures laid { Laid places.new at (shown_term t.now) }
    ensures place { IsPlace result at (shown_term t.now) }
    ensures outside { SameOutside at (at + nodes (shown_term t.now)) places.old places.new }
{
    let place = lay_parts(t, at, places);
    places[at] = place;
    place
}

// Lays out the parts of a term. Returns what the term's own place has to be.
#[cycle(lay)]
fn lay_parts(t: &Term, at: usize, places: &mut [Place]) -> Place
    requires { at + nodes (shown_term t.now) ≤ length places.old }
    ensures laid { LaidBelow places.new at (shown_term t.now) }
    ensures place { IsPlace result at (shown_term t.now) }
    ensures outside { SameOutside (at + 1) (at + nodes (shown_term t.now)) places.old places.new }
{
    match top(t) {
        Node::Const(_) => empty(at + 1),
        Node::Var(_) => empty(at + 1),
        Node::If(condition, a, b) => {
            let first = lay(condition, at + 1, places);
            let second = lay(a, first.next, places);
            let third = lay(b, second.next, places);
            followed(first, either(second, third))
        }
        Node::Let(_, bound, body) => {
            let below = lay(body, at + 1, places);
            let bindings = lay_all(bound, below.next, places);
            bound_in(below, bindings)
        }
        Node::Op(_, ts) => lay_all(ts, at + 1, places),
        Node::Call(_, k, ts) => with_site(lay_all(ts, at + 1, places), k),
        Node::Loop(_, ts) => with_loop(lay_all(ts, at + 1, places)),
    }
}

// Lays out the nodes of several terms, one after the other.
#[cycle(lay)]
fn lay_all(ts: &[Term], at: usize, places: &mut [Place]) -> Place
    requires { at + nodes_in (shown_terms ts.now) ≤ length places.old }
    ensures laid { LaidIn places.new at (shown_terms ts.now) }
    ensures room { IsRoom result at (shown_terms ts.now) }
    ensures outside { SameOutside at (at + nodes_in (shown_terms ts.now)) places.old places.new }
{
    let Some((first, rest)) = ts.split_first() else {
        return empty(at);
    };
    let one = lay(first, at, places);
    let others = lay_all(rest, one.next, places);
    followed(one, others)
}

// A place without sites. `next` is the place after it.
fn empty(next: usize) -> Place
    ensures next { result.next ≡ next }
    ensures plain { result.is_plain ≡ true }
    ensures body { result.is_plain_body ≡ true }
{
    Place {
        next,
        first: u32::MAX,
        last: 0,
        is_plain: true,
        is_plain_body: true,
    }
}

// Two terms, one after the other, of which only the second may be in tail position: the sites of both, and the place after
// the second.
fn followed(a: Place, b: Place) -> Place
    ensures next { result.next ≡ b.next }
    ensures first { Covers result a }
    ensures second { Covers result b }
    ensures plain { result.is_plain ≡ (a.is_plain && b.is_plain) }
    ensures body { result.is_plain_body ≡ (a.is_plain && b.is_plain_body) }
{
    Place {
        next: b.next,
        first: a.first.min(b.first),
        last: a.last.max(b.last),
        is_plain: a.is_plain && b.is_plain,
        is_plain_body: a.is_plain && b.is_plain_body,
    }
}

// Two branches, one after the other. Both may be in tail position.
fn either(a: Place, b: Place) -> Place
    ensures next { result.next ≡ b.next }
    ensures first { Covers result a }
    ensures second { Covers result b }
    ensures plain { result.is_plain ≡ (a.is_plain && b.is_plain) }
    ensures body { result.is_plain_body ≡ (a.is_plain_body && b.is_plain_body) }
{
    Place {
        is_plain_body: a.is_plain_body && b.is_plain_body,
        ..followed(a, b)
    }
}

// The body of a let and its bindings, which lie after it. Only the body may be in tail position.
fn bound_in(body: Place, bindings: Place) -> Place
    ensures next { result.next ≡ bindings.next }
    ensures first { Covers result body }
    ensures second { Covers result bindings }
    ensures plain { result.is_plain ≡ (bindings.is_plain && body.is_plain) }
    ensures body { result.is_plain_body ≡ (bindings.is_plain && body.is_plain_body) }
{
    Place {
        next: bindings.next,
        ..followed(bindings, body)
    }
}

// The place with one more site.
fn with_site(place: Place, k: u32) -> Place
    ensures next { result.next ≡ place.next }
    ensures others { Covers result place }
    ensures first { result.first ≤ k }
    ensures last { k ≤ result.last }
    ensures plain { result.is_plain ≡ false }
    ensures body { result.is_plain_body ≡ false }
{
    Place {
        next: place.next,
        first: place.first.min(k),
        last: place.last.max(k),
        is_plain: false,
        is_plain_body: false,
    }
}

// The place of a tail call, from that of its arguments: no plain term, but a plain body if they are plain.
fn with_loop(place: Place) -> Place
    ensures { result ≡ record place { is_plain = false } }
{
    Place {
        is_plain: false,
        ..place
    }
}
