//! The steps of an evaluation.

ghost use Rattle.std.specs.Prelude.{◌≡◌, ℕ, ◌<◌, ◌≤◌, ◌+◌, IfOk};
ghost use Rattle.safl_term.specs.Checked.{IsChecked};
ghost use Rattle.safl_term.specs.Program.{Program};
ghost use Rattle.safl_term.specs.Tree.{shown_term, shown_terms};
ghost use Rattle.safl_term.specs.WellFormed.{HasWidth};
ghost use Rattle.safl_word.specs.Words.{widths, choose};
ghost use Rattle.safl_interpreter.specs.Accounts as plain;
ghost use Rattle.safl_interpreter.specs.Accounts.{shown_account};
ghost use Rattle.safl_interpreter.specs.Sound.{CanFinish, IsStep, Steps};
ghost use Rattle.safl_interpreter.specs.Turns.{shown_turn, shown_then, shown_frame, begun, Enter, Within};

use crate::account::{Account, book};
use crate::frame::{Frame, Then};
use crate::turn::Turn;
use safl_term::{Checked, Node, Term, top};
use safl_word::{NoMemory, Word, apply};
use std::alloc::Global;

/// Begins a term: its word if it has no parts, else its parts.
pub fn enter<'a>(alloc: Global, t: &'a Term, slots: Vec<Word>, now: u64) -> Turn<'a>
    requires { (C : Program) × (n : ℕ) × HasWidth C (widths slots.items) (shown_term t.now) n }
    ensures { (C : Program) (a : plain.Account) → IsStep C (Enter (shown_term t.now) slots.items now) a (shown_turn result) a }
{
    match top(t) {
        Node::Const(word) => Turn::Leave(word, now),
        Node::Var(slot) => Turn::Leave(slots[slot as usize], now),
        Node::If(condition, a, b) => {
            let parts = std::slice::from_ref(condition);
            begin(alloc, Then::Choose(a, b), parts, slots, now)
        }
        Node::Let(_, ts, body) => begin(alloc, Then::Bind(body), ts, slots, now),
        Node::Op(p, ts) => begin(alloc, Then::Operate(p), ts, slots, now),
        Node::Call(f, _, ts) => begin(alloc, Then::Apply(f, false), ts, slots, now),
        Node::Loop(f, ts) => begin(alloc, Then::Apply(f, true), ts, slots, now),
    }
}

// Begins with the first of the parts.
fn begin<'a>(
    alloc: Global,
    then: Then<'a>,
    rest: &'a [Term],
    slots: Vec<Word>,
    now: u64,
) -> Turn<'a>
    ensures { shown_turn result ≡ Within (begun (shown_then then.entry) (shown_terms rest.now) slots.items now) }
{
    let words = Vec::new(alloc);
    Turn::Within(Frame {
        then,
        rest,
        words,
        slots,
        begun: now,
        ready: now,
    })
}

/// Does what is to be done when the words of all parts are known.
pub fn finish<'a>(
    c: &'a Checked,
    frame: Frame<'a>,
    account: &mut Account,
) -> Result<Turn<'a>, NoMemory>
    requires checked { IsChecked c.now }
    requires can { CanFinish c.now.program (shown_frame frame) (shown_account account.old) }
    ensures { IfOk result (λ t. Steps c.now.program frame.entry account.old t account.new) }
{
    let Frame {
        then,
        rest: _,
        words,
        mut slots,
        begun: _,
        ready,
    } = frame;
    match then {
        Then::Choose(a, b) => Ok(Turn::Enter(branch(words[0], a, b), slots, ready)),
        Then::Bind(body) => {
            slots.extend_from_slice(&words)?;
            Ok(Turn::Enter(body, slots, ready))
        }
        Then::Operate(p) => Ok(Turn::Leave(apply(p, &words), ready)),
        Then::Apply(f, is_loop) => {
            book(account, f, is_loop);
            Ok(Turn::Enter(c.body(f), words, ready + cycles(is_loop)))
        }
    }
}

// The branch that a condition selects.
fn branch<'a>(test: Word, a: &'a Term, b: &'a Term) -> &'a Term
    ensures { shown_term result.now ≡ choose test (shown_term a.now) (shown_term b.now) }
{
    if test.bits() == 1 { a } else { b }
}

// The cycles that a call takes beside its arguments and its body.
fn cycles(is_loop: bool) -> u64
    ensures value { result ≡ plain.cycles is_loop }
    ensures most { result ≤ 2 }
{
    if is_loop { 1 } else { 2 }
}
