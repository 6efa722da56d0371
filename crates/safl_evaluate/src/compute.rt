//! Evaluation of plain terms and plain bodies.
//!
//! A plain term has no calls and no tail calls. A plain body may have tail calls, in tail position. Neither waits for a site,
//! so nothing is kept of their parts.

ghost use Rattle.std.specs.Prelude.{◌≡◌, ◌+◌, ◌≤◌, length, map, take, IsSome};
ghost use Rattle.safl_term.specs.Tree.{shown_term, shown_terms};
ghost use Rattle.safl_word.specs.Primitives.{apply_prim, result_width};
ghost use Rattle.safl_evaluate.specs.Answers.{HasRoom};
ghost use Rattle.safl_evaluate.specs.Looking.{words_at};
ghost use Rattle.safl_evaluate.specs.Plain.{CanCompute, CanComputeAll, CanConclude, ComesTo, ComeTo, ConcludesIn, PassesOn, PassesOne};

use crate::answer::Answer;
use safl_term::{Node, Term, top};
use safl_word::{Primitive, Word, apply};

/// A word that will be overwritten.
pub fn blank() -> Word {
    Word::from_parts(1, 0)
}

/// Writes what a plain body comes to, a word or a tail call, to `told`. Its slots have the first `slots` words of `env`; the
/// words from there on are overwritten.
pub fn conclude(env: &mut [Word], slots: usize, t: &Term, told: &mut Answer)
    requires { CanConclude env.old slots (shown_term t.now) }
    ensures { ConcludesIn (take slots env.old) (shown_term t.now) told.new }
{
    let mut word = blank();
    match top(t) {
        Node::If(condition, a, b) => {
            operand(env, slots, condition, &mut word);
            if word.bits() == 1 {
                conclude(env, slots, a, told);
            } else {
                conclude(env, slots, b, told);
            }
        }
        Node::Let(_, bound, body) => {
            values(env, slots, slots, bound);
            conclude(env, slots + bound.len(), body, told);
        }
        Node::Loop(h, ts) => {
            told.begin(h);
            pass(env, slots, ts, told);
        }
        Node::Const(number) => told.settle(Some(number)),
        Node::Var(slot) => told.settle(Some(env[slot as usize])),
        Node::Op(_, _) => {
            compute(env, slots, t, &mut word);
            told.settle(Some(word));
        }
        Node::Call(_, _, _) => unreachable!(),
    }
}

// Adds the words that the terms come to to a tail call.
fn pass(env: &mut [Word], slots: usize, ts: &[Term], told: &mut Answer)
    requires can { CanComputeAll env.old slots (shown_terms ts.now) }
    requires room { HasRoom told.old (length ts.now) }
    ensures { PassesOn (take slots env.old) (shown_terms ts.now) told.old told.new }
{
    let Some((first, rest)) = ts.split_first() else {
        return;
    };
    pass_one(env, slots, first, told);
    pass(env, slots, rest, told);
}

// Adds one word.
fn pass_one(env: &mut [Word], slots: usize, t: &Term, told: &mut Answer)
    requires can { CanCompute env.old slots (shown_term t.now) }
    requires room { HasRoom told.old 1 }
    ensures told { PassesOne (take slots env.old) (shown_term t.now) told.old told.new }
    ensures kept { take slots env.new ≡ take slots env.old }
{
    let mut word = blank();
    operand(env, slots, t, &mut word);
    told.add(again(&word));
}

// The same word, read part by part. A word that has just been written part by part takes longer to be read as a whole.
fn again(word: &Word) -> Word
    ensures { result ≡ word.now }
{
    Word::from_parts(word.width(), word.bits())
}

/// Writes what a primitive gives on these words, in place.
pub fn applied(p: &Primitive, operands: &[Word], word: &mut Word)
    requires { IsSome (result_width p.now (map (λ v. v.width) operands.now)) }
    ensures { word.new ≡ apply_prim p.now operands.now }
{
    *word = again(&apply(*p, operands));
}

/// The `count` words of `env` from `at` on.
pub fn words(env: &[Word], at: usize, count: usize) -> &[Word]
    requires { at + count ≤ length env.now }
    ensures { result.now ≡ words_at env.now at count }
{
    &env[at..at + count]
}

/// Writes the word that a plain term comes to. Its slots have the first `slots` words of `env`; the words from there on are
/// overwritten.
#[cycle(compute)]
pub fn compute(env: &mut [Word], slots: usize, t: &Term, word: &mut Word)
    requires { CanCompute env.old slots (shown_term t.now) }
    ensures word { ComesTo (take slots env.old) (shown_term t.now) word.new }
    ensures kept { take slots env.new ≡ take slots env.old }
{
    match top(t) {
        Node::Const(number) => *word = number,
        Node::Var(slot) => *word = env[slot as usize],
        Node::If(condition, a, b) => {
            operand(env, slots, condition, word);
            if word.bits() == 1 {
                operand(env, slots, a, word);
            } else {
                operand(env, slots, b, word);
            }
        }
        Node::Let(_, bound, body) => {
            values(env, slots, slots, bound);
            operand(env, slots + bound.len(), body, word);
        }
        Node::Op(p, operands) => {
            let mut words = [blank(), blank()];
            pair(env, slots, operands, &mut words);
            applied(&p, &words[..operands.len()], word);
        }
        Node::Call(_, _, _) => unreachable!(),
        Node::Loop(_, _) => unreachable!(),
    }
}

// Does the same as `compute`, but needs no call for constants and slots.
#[cycle(compute)]
fn operand(env: &mut [Word], slots: usize, t: &Term, word: &mut Word)
    requires { CanCompute env.old slots (shown_term t.now) }
    ensures word { ComesTo (take slots env.old) (shown_term t.now) word.new }
    ensures kept { take slots env.new ≡ take slots env.old }
{
    match top(t) {
        Node::Const(number) => *word = number,
        Node::Var(slot) => *word = env[slot as usize],
        _ => compute(env, slots, t, word),
    }
}

// Writes the words of one or two operands. None of them is written to `env`.
#[cycle(compute)]
fn pair(env: &mut [Word], slots: usize, ts: &[Term], words: &mut [Word])
    requires can { CanComputeAll env.old slots (shown_terms ts.now) }
    requires least { 1 ≤ length ts.now }
    requires most { length ts.now ≤ 2 }
    requires room { length words.old ≡ 2 }
    ensures words { ComeTo (take slots env.old) (shown_terms ts.now) (take (length ts.now) words.new) }
    ensures kept { take slots env.new ≡ take slots env.old }
{
    match ts {
        [] => unreachable!(),
        [only] => operand(env, slots, only, &mut words[0]),
        [a, b] => {
            operand(env, slots, a, &mut words[0]);
            operand(env, slots, b, &mut words[1]);
        }
        [_, _, _, ..] => unreachable!(),
    }
}

// Writes the words of terms to `env` from `to` on. Computing a term may overwrite `env` from `slots` on, so the word of each
// term is written after those of the terms that follow it.
#[cycle(compute)]
fn values(env: &mut [Word], slots: usize, to: usize, ts: &[Term])
    requires can { CanComputeAll env.old slots (shown_terms ts.now) }
    requires places { to + length ts.now ≤ length env.old }
    requires after { slots ≤ to }
    ensures words { ComeTo (take slots env.old) (shown_terms ts.now) (words_at env.new to (length ts.now)) }
    ensures kept { take slots env.new ≡ take slots env.old }
{
    let Some((first, rest)) = ts.split_first() else {
        return;
    };
    let mut word = blank();
    operand(env, slots, first, &mut word);
    values(env, slots, to + 1, rest);
    env[to] = word;
}
