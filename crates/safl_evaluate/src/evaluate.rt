//! Partial evaluation: what a running body comes to so far, and which calls it wants.

ghost use Rattle.std.specs.Prelude.{◌≡◌, ◌+◌, ◌<◌, ◌≤◌, ◌^◌, length, take, cond, slice_get, slice_set, Some, None, IsTrue};
ghost use Rattle.safl_term.specs.Readiness.{answer, word_of};
ghost use Rattle.safl_term.specs.Tree.{shown_term, shown_terms};
ghost use Rattle.safl_evaluate.specs.Asking.{Asks};
ghost use Rattle.safl_evaluate.specs.Finding.{cell_of};
ghost use Rattle.safl_evaluate.specs.Keeping.{cell, is_open, IsAnew, IsSkipped};
ghost use Rattle.safl_evaluate.specs.Looking.{CanLook, CanLookAll, HasLooked, HasFound, HasFoundAll, IsFound, AreFound, word_if, words_if, words_at, words_if_at};
ghost use Rattle.safl_evaluate.specs.Laying.{place};
ghost use Rattle.safl_evaluate.specs.Plain.{CanCompute, ComesTo};
ghost use Rattle.safl_evaluate.specs.Stages.{back_at};

use crate::answer::Answer;
use crate::compute::{applied, blank, compute, conclude, words};
use crate::kept::{Found, Kept, is_open_at, keep, keep_told, opened, ready, recall, shut};
use crate::places::Place;
use crate::stage::Stage;
use crate::wants::Wants;
use safl_term::{Node, Term, top};
use safl_word::Word;

/// What stays the same during an evaluation: the stages of the sites, and the places of the nodes.
#[derive(Clone, Copy)]
pub struct Facts<'a> {
    pub stages: &'a [Stage],
    pub places: &'a [Place],
}

/// Where a term is looked at: the number of slots that it sees, its place, and the news. The news is the site that has
/// returned since the term was last looked at, or None if it is looked at for the first time.
#[derive(Clone, Copy)]
pub struct Spot {
    pub slots: usize,
    pub at: usize,
    pub news: Option<u32>,
}

/// Evaluates a term whose slots have the first `slots` words of `env`: writes what it comes to to `told`, and the words
/// with which it wants its sites to `asks`. What is found is kept for the next time. The words of `env` from `slots` on
/// are overwritten.
pub fn evaluate(
    facts: &Facts,
    asks: &mut Wants,
    env: &mut [Word],
    kept: &mut [Kept],
    spot: Spot,
    t: &Term,
    told: &mut Answer,
)
    requires { CanLook facts.now asks.old env.old kept.old spot (shown_term t.now) }
    ensures answer { told.new ≡ answer (back_at facts.now.stages.now) (take spot.slots env.old) (shown_term t.now) }
    ensures finds { HasFound facts.now asks.old asks.new env.old kept.old kept.new spot (shown_term t.now) (word_of told.new) }
    ensures asks { Asks asks.old asks.new }
{
    if is_plain_body_at(facts, spot.at) {
        conclude(env, spot.slots, t, told);
        keep_told(kept, spot.at, told);
        return;
    }
    match top(t) {
        Node::Const(word) => told.settle(Some(word)),
        Node::Var(slot) => told.settle(Some(env[slot as usize])),
        Node::If(condition, a, b) => {
            let mut word = blank();
            if operand(facts, asks, env, kept, part(spot), condition, &mut word) {
                let second = branch(facts, kept, spot);
                if word.bits() == 1 {
                    evaluate(facts, asks, env, kept, second, a, told);
                    keep_told(kept, spot.at, told);
                } else {
                    evaluate(facts, asks, env, kept, after(facts, second), b, told);
                    keep_told(kept, spot.at, told);
                }
            } else {
                shut(kept, spot.at);
                told.settle(None);
            }
        }
        Node::Let(_, bound, body) => {
            let bindings = after(facts, part(spot));
            if values(facts, asks, env, kept, bindings, spot.slots, bound) {
                let below = within(kept, spot, bound.len());
                evaluate(facts, asks, env, kept, below, body, told);
                keep_told(kept, spot.at, told);
            } else {
                shut(kept, spot.at);
                told.settle(None);
            }
        }
        Node::Op(_, _) | Node::Call(_, _, _) => {
            let mut word = blank();
            if find(facts, asks, env, kept, spot, t, &mut word) {
                told.settle(Some(word));
            } else {
                told.settle(None);
            }
        }
        Node::Loop(h, passed) => {
            if values(facts, asks, env, kept, part(spot), spot.slots, passed) {
                told.pass(h, words(env, spot.slots, passed.len()));
                shut(kept, spot.at);
            } else {
                told.settle(None);
                shut(kept, spot.at);
            }
        }
    }
}

// The spot of a term's first part.
fn part(spot: Spot) -> Spot
    requires { spot.at + 1 < 2 ^ 64 }
    ensures slots { result.slots ≡ spot.slots }
    ensures at { result.at ≡ spot.at + 1 }
    ensures news { result.news ≡ spot.news }
{
    Spot {
        at: spot.at + 1,
        ..spot
    }
}

// The spot of what follows a term.
fn after(facts: &Facts, spot: Spot) -> Spot
    requires { spot.at < length facts.now.places.now }
    ensures slots { result.slots ≡ spot.slots }
    ensures at { result.at ≡ (place facts.now.places.now spot.at).next }
    ensures news { result.news ≡ spot.news }
{
    Spot {
        at: next(facts, spot.at),
        ..spot
    }
}

// The place after the nodes of the term at a place.
fn next(facts: &Facts, at: usize) -> usize
    requires { at < length facts.now.places.now }
    ensures { result ≡ (place facts.now.places.now at).next }
{
    facts.places[at].next
}

// The news for what is below an if or a let. That was looked at before only if the condition or the bindings were
// ready; if they were not, it is looked at for the first time.
fn news_below(kept: &[Kept], spot: Spot) -> Option<u32>
    requires { spot.at < length kept.now }
    ensures { result ≡ cond (is_open (cell kept.now spot.at)) spot.news None }
{
    if is_open_at(kept, spot.at) {
        spot.news
    } else {
        None
    }
}

// The spot of the first branch of an if.
fn branch(facts: &Facts, kept: &[Kept], spot: Spot) -> Spot
    requires places { spot.at + 1 < length facts.now.places.now }
    requires kept { spot.at < length kept.now }
    ensures slots { result.slots ≡ spot.slots }
    ensures at { result.at ≡ (place facts.now.places.now (spot.at + 1)).next }
    ensures news { result.news ≡ cond (is_open (cell kept.now spot.at)) spot.news None }
{
    Spot {
        slots: spot.slots,
        at: next(facts, spot.at + 1),
        news: news_below(kept, spot),
    }
}

// The spot of the body of a let with `count` bindings.
fn within(kept: &[Kept], spot: Spot, count: usize) -> Spot
    requires few { spot.slots + count < 2 ^ 64 }
    requires kept { spot.at < length kept.now }
    ensures slots { result.slots ≡ spot.slots + count }
    ensures at { result.at ≡ spot.at + 1 }
    ensures news { result.news ≡ cond (is_open (cell kept.now spot.at)) spot.news None }
{
    Spot {
        slots: spot.slots + count,
        at: spot.at + 1,
        news: news_below(kept, spot),
    }
}

// Whether a term can be skipped: it was looked at before, has parts, and the site that has returned is none of its own.
fn is_skipped(facts: &Facts, spot: Spot) -> bool
    requires { spot.at < length facts.now.places.now }
    ensures { IsTrue result → IsSkipped facts.now.places.now spot.at spot.news }
{
    match spot.news {
        Some(site) => {
            let place = facts.places[spot.at];
            place.next > spot.at + 1 && (site < place.first || place.last < site)
        }
        None => false,
    }
}

// Whether this site is the one that has returned. It does not stand in its own arguments, so nothing has changed there.
fn has_returned(spot: Spot, site: u32) -> bool
    ensures { IsTrue result → spot.news ≡ Some site }
{
    match spot.news {
        Some(news) => news == site,
        None => false,
    }
}

// Whether the term at a place is a plain term.
fn is_plain_at(facts: &Facts, at: usize) -> bool
    requires { at < length facts.now.places.now }
    ensures { result ≡ (place facts.now.places.now at).is_plain }
{
    facts.places[at].is_plain
}

// Whether the term at a place is a plain body.
fn is_plain_body_at(facts: &Facts, at: usize) -> bool
    requires { at < length facts.now.places.now }
    ensures { result ≡ (place facts.now.places.now at).is_plain_body }
{
    facts.places[at].is_plain_body
}

// The spot of a term as it is looked at. A plain body is looked at as if for the first time, since nothing is kept of its
// parts.
fn anew(facts: &Facts, spot: Spot) -> Spot
    requires { spot.at < length facts.now.places.now }
    ensures slots { result.slots ≡ spot.slots }
    ensures at { result.at ≡ spot.at }
    ensures news { result.news ≡ cond (place facts.now.places.now spot.at).is_plain_body None spot.news }
{
    if is_plain_body_at(facts, spot.at) {
        Spot { news: None, ..spot }
    } else {
        spot
    }
}

// Writes the word that a plain term comes to, and keeps it.
fn compute_and_keep(env: &mut [Word], kept: &mut [Kept], spot: Spot, t: &Term, word: &mut Word)
    requires can { CanCompute env.old spot.slots (shown_term t.now) }
    requires at { spot.at < length kept.old }
    ensures word { ComesTo (take spot.slots env.old) (shown_term t.now) word.new }
    ensures keeps { kept.new ≡ slice_set kept.old spot.at (cell_of Found.Ready word.new) }
    ensures kept { take spot.slots env.new ≡ take spot.slots env.old }
{
    compute(env, spot.slots, t, word);
    keep(kept, spot.at, Found::Ready, word);
}

// Writes the word of a term to `word`, and says whether it has one. The word is written in place, since a copy of a
// word costs more than most operators. A term is skipped if none of its sites has returned since it was last looked at.
#[cycle(find)]
fn find(
    facts: &Facts,
    asks: &mut Wants,
    env: &mut [Word],
    kept: &mut [Kept],
    spot: Spot,
    t: &Term,
    word: &mut Word,
) -> bool
    requires { CanLook facts.now asks.old env.old kept.old spot (shown_term t.now) }
    ensures finds { HasFound facts.now asks.old asks.new env.old kept.old kept.new spot (shown_term t.now) (word_if result word.new) }
    ensures asks { Asks asks.old asks.new }
    ensures kept { take spot.slots env.new ≡ take spot.slots env.old }
{
    if is_skipped(facts, spot) {
        return recall(kept, spot.at, word);
    }
    if is_plain_at(facts, spot.at) {
        compute_and_keep(env, kept, spot, t, word);
        return true;
    }
    let found = look(facts, asks, env, kept, anew(facts, spot), t, word);
    keep(kept, spot.at, found, word)
}

// Looks at a term whose parts may have changed. A plain body has to be looked at as if for the first time.
#[cycle(find)]
fn look(
    facts: &Facts,
    asks: &mut Wants,
    env: &mut [Word],
    kept: &mut [Kept],
    spot: Spot,
    t: &Term,
    word: &mut Word,
) -> Found
    requires may { CanLook facts.now asks.old env.old kept.old spot (shown_term t.now) }
    requires anew { IsAnew spot.news (shown_term t.now) }
    ensures looks { HasLooked facts.now asks.old asks.new env.old kept.old kept.new spot (shown_term t.now) (cell_of result word.new) }
    ensures asks { Asks asks.old asks.new }
    ensures kept { take spot.slots env.new ≡ take spot.slots env.old }
{
    match top(t) {
        Node::Const(number) => ready(put(word, &number)),
        Node::Var(slot) => ready(put(word, &env[slot as usize])),
        Node::If(condition, a, b) => {
            if operand(facts, asks, env, kept, part(spot), condition, word) {
                let second = branch(facts, kept, spot);
                if word.bits() == 1 {
                    opened(operand(facts, asks, env, kept, second, a, word))
                } else {
                    opened(operand(facts, asks, env, kept, after(facts, second), b, word))
                }
            } else {
                Found::Shut
            }
        }
        Node::Let(_, bound, body) => {
            let bindings = after(facts, part(spot));
            if values(facts, asks, env, kept, bindings, spot.slots, bound) {
                let below = within(kept, spot, bound.len());
                opened(operand(facts, asks, env, kept, below, body, word))
            } else {
                Found::Shut
            }
        }
        Node::Op(p, operands) => {
            let mut words = [blank(), blank()];
            if pair(facts, asks, env, kept, part(spot), operands, &mut words) {
                applied(&p, &words[..operands.len()], word);
                Found::Ready
            } else {
                Found::Shut
            }
        }
        Node::Call(_, k, args) => {
            if has_returned(spot, k) {
                return ready(returned(facts.stages, k, word));
            }
            if values(facts, asks, env, kept, part(spot), spot.slots, args) {
                asks.ask(k, words(env, spot.slots, args.len()));
            }
            ready(returned(facts.stages, k, word))
        }
        Node::Loop(_, passed) => {
            values(facts, asks, env, kept, part(spot), spot.slots, passed);
            Found::Shut
        }
    }
}

// Writes a word that is known already.
fn put(word: &mut Word, found: &Word) -> bool
    ensures { cond result (Some word.new) None ≡ Some found.now }
{
    *word = *found;
    true
}

// Does the same as `find`, but needs no call for constants and slots.
#[cycle(find)]
fn operand(
    facts: &Facts,
    asks: &mut Wants,
    env: &mut [Word],
    kept: &mut [Kept],
    spot: Spot,
    t: &Term,
    word: &mut Word,
) -> bool
    requires { CanLook facts.now asks.old env.old kept.old spot (shown_term t.now) }
    ensures finds { HasFound facts.now asks.old asks.new env.old kept.old kept.new spot (shown_term t.now) (word_if result word.new) }
    ensures asks { Asks asks.old asks.new }
    ensures kept { take spot.slots env.new ≡ take spot.slots env.old }
{
    match top(t) {
        Node::Const(number) => put(word, &number),
        Node::Var(slot) => put(word, &env[slot as usize]),
        _ => find(facts, asks, env, kept, spot, t, word),
    }
}

// Writes the words of one or two operands, and says whether all are ready. None of them is written to `env`.
#[cycle(find)]
fn pair(
    facts: &Facts,
    asks: &mut Wants,
    env: &mut [Word],
    kept: &mut [Kept],
    spot: Spot,
    ts: &[Term],
    words: &mut [Word],
) -> bool
    requires may { CanLookAll facts.now asks.old env.old kept.old spot (shown_terms ts.now) }
    requires least { 1 ≤ length ts.now }
    requires most { length ts.now ≤ 2 }
    requires room { length words.old ≡ 2 }
    ensures finds { HasFoundAll facts.now asks.old asks.new env.old kept.old kept.new spot (shown_terms ts.now)
        (words_if result (take (length ts.now) words.new)) }
    ensures asks { Asks asks.old asks.new }
    ensures kept { take spot.slots env.new ≡ take spot.slots env.old }
{
    match ts {
        [] => unreachable!(),
        [only] => operand(facts, asks, env, kept, spot, only, &mut words[0]),
        [a, b] => {
            let first = operand(facts, asks, env, kept, spot, a, &mut words[0]);
            let second = operand(facts, asks, env, kept, after(facts, spot), b, &mut words[1]);
            first && second
        }
        [_, _, _, ..] => unreachable!(),
    }
}

// Writes the words of terms to `env` from `to` on, and says whether all are ready. Mostly they are known already: a
// site that returns has a path above it, and what stands beside the path is as it was.
#[cycle(find)]
fn values(
    facts: &Facts,
    asks: &mut Wants,
    env: &mut [Word],
    kept: &mut [Kept],
    spot: Spot,
    to: usize,
    ts: &[Term],
) -> bool
    requires may { CanLookAll facts.now asks.old env.old kept.old spot (shown_terms ts.now) }
    requires places { to + length ts.now ≤ length env.old }
    requires after { spot.slots ≤ to }
    ensures finds { HasFoundAll facts.now asks.old asks.new env.old kept.old kept.new spot (shown_terms ts.now)
        (words_if_at result env.new to (length ts.now)) }
    ensures asks { Asks asks.old asks.new }
    ensures kept { take spot.slots env.new ≡ take spot.slots env.old }
{
    if are_known(facts, asks, env, kept, spot, to, ts) {
        return true;
    }
    look_at_all(facts, asks, env, kept, spot, to, ts)
}

// Whether the words of terms are known without a look at their parts: of constants, of slots, and of terms that are
// skipped and have one. They are written to `env` from `to` on, up to the first that is not known.
fn are_known(
    facts: &Facts,
    asks: &Wants,
    env: &mut [Word],
    kept: &[Kept],
    spot: Spot,
    to: usize,
    ts: &[Term],
) -> bool
    requires may { CanLookAll facts.now asks.now env.old kept.now spot (shown_terms ts.now) }
    requires places { to + length ts.now ≤ length env.old }
    requires after { spot.slots ≤ to }
    ensures finds { IsTrue result → AreFound facts.now asks.now env.old kept.now spot (shown_terms ts.now)
        (Some (words_at env.new to (length ts.now))) }
    ensures kept { take to env.new ≡ take to env.old }
{
    let Some((first, rest)) = ts.split_first() else {
        return true;
    };
    is_known(facts, asks, env, kept, spot, to, first)
        && are_known(facts, asks, env, kept, after(facts, spot), to + 1, rest)
}

// Whether the word of a term is known without a look at its parts. It is written to the slot `to`.
fn is_known(
    facts: &Facts,
    asks: &Wants,
    env: &mut [Word],
    kept: &[Kept],
    spot: Spot,
    to: usize,
    t: &Term,
) -> bool
    requires may { CanLook facts.now asks.now env.old kept.now spot (shown_term t.now) }
    requires place { to < length env.old }
    requires after { spot.slots ≤ to }
    ensures finds { IsTrue result → IsFound facts.now asks.now env.old kept.now spot (shown_term t.now) (slice_get env.new to) }
    ensures kept { take to env.new ≡ take to env.old }
{
    match top(t) {
        Node::Const(number) => put(&mut env[to], &number),
        Node::Var(slot) => {
            let word = env[slot as usize];
            put(&mut env[to], &word)
        }
        _ => is_skipped(facts, spot) && recall(kept, spot.at, &mut env[to]),
    }
}

// Writes the words of terms to `env` from `to` on, and says whether all are ready. Evaluating a term may overwrite
// `env` from `slots` on, so the word of each term is written after those of the terms that follow it.
#[cycle(find)]
fn look_at_all(
    facts: &Facts,
    asks: &mut Wants,
    env: &mut [Word],
    kept: &mut [Kept],
    spot: Spot,
    to: usize,
    ts: &[Term],
) -> bool
    requires may { CanLookAll facts.now asks.old env.old kept.old spot (shown_terms ts.now) }
    requires places { to + length ts.now ≤ length env.old }
    requires after { spot.slots ≤ to }
    ensures finds { HasFoundAll facts.now asks.old asks.new env.old kept.old kept.new spot (shown_terms ts.now)
        (words_if_at result env.new to (length ts.now)) }
    ensures asks { Asks asks.old asks.new }
    ensures kept { take spot.slots env.new ≡ take spot.slots env.old }
{
    let Some((first, rest)) = ts.split_first() else {
        return true;
    };
    let mut word = blank();
    let found = operand(facts, asks, env, kept, spot, first, &mut word);
    let ready = look_at_all(facts, asks, env, kept, after(facts, spot), to + 1, rest);
    if found {
        env[to] = word;
        ready
    } else {
        false
    }
}

// Writes the word that a site has returned, and says whether it has returned.
fn returned(stages: &[Stage], k: u32, word: &mut Word) -> bool
    requires least { 1 ≤ k }
    requires within { k < length stages.now }
    ensures { cond result (Some word.new) None ≡ back_at stages.now k }
{
    match &stages[k as usize] {
        Stage::Unsent => false,
        Stage::Sent => false,
        Stage::Returned(back) => put(word, back),
    }
}
