//! One round of the evaluation: a turn, and what waits for its word.

ghost use Rattle.std.specs.Prelude.{◌≡◌, IfOk};
ghost use Rattle.safl_term.specs.Checked.{IsChecked};
ghost use Rattle.safl_term.specs.Tree.{shown_terms};
ghost use Rattle.safl_interpreter.specs.Accounts.{shown_account};
ghost use Rattle.safl_interpreter.specs.Turns.{calls, shown_frame, shown_turn, with_rest, with_word};
ghost use Rattle.safl_interpreter.specs.Rounds.{IsState, Rounds, shown_stack};

use crate::account::Account;
use crate::frame::{Frame, Then};
use crate::steps::{enter, finish};
use crate::turn::Turn;
use safl_term::{Checked, Term};
use safl_word::{NoMemory, Word};
use std::alloc::Global;

/// What a round comes to.
#[derive(Drop)]
pub enum Round<'a> {
    /// The next turn.
    Next(Turn<'a>),
    /// Main has come to this word, and is ready in this cycle.
    Done(Word, u64),
    /// All calls of the budget are made, and one more is needed.
    Spent,
}

/// One turn. The frames on the stack wait for its word, the last one first.
pub fn make_round<'a>(
    alloc: Global,
    c: &'a Checked,
    stack: &mut Vec<Frame<'a>>,
    turn: Turn<'a>,
    account: &mut Account,
    budget: u32,
) -> Result<Round<'a>, NoMemory>
    requires checked { IsChecked c.now }
    requires state { IsState c.now.program (shown_stack stack.old.items) (shown_turn turn) (shown_account account.old) budget }
    ensures { IfOk result (λ r. Rounds c.now.program stack.old.items turn.entry account.old stack.new.items r account.new budget) }
{
    match turn {
        Turn::Enter(t, slots, now) => Ok(Round::Next(enter(alloc, t, slots, now))),
        Turn::Leave(word, now) => match stack.pop() {
            Some(frame) => Ok(Round::Next(Turn::Within(returned(frame, word, now)?))),
            None => Ok(Round::Done(word, now)),
        },
        Turn::Within(frame) => match frame.rest.split_first() {
            Some((first, rest)) => {
                let slots = frame.slots.to_vec(alloc)?;
                let now = frame.begun;
                stack.push(without_first(frame, rest))?;
                Ok(Round::Next(Turn::Enter(first, slots, now)))
            }
            None => {
                if account.calls == budget && needs_call(&frame) {
                    return Ok(Round::Spent);
                }
                Ok(Round::Next(finish(c, frame, account)?))
            }
        },
    }
}

// The frame when a part has come to this word, and is ready in this cycle.
fn returned<'a>(frame: Frame<'a>, word: Word, now: u64) -> Result<Frame<'a>, NoMemory>
    ensures { IfOk result (λ r. shown_frame r ≡ with_word (shown_frame frame.entry) word now) }
{
    let Frame {
        then,
        rest,
        mut words,
        slots,
        begun,
        ready,
    } = frame;
    words.push(word)?;
    Ok(Frame {
        then,
        rest,
        words,
        slots,
        begun,
        ready: ready.max(now),
    })
}

// The frame with these parts left.
fn without_first<'a>(frame: Frame<'a>, rest: &'a [Term]) -> Frame<'a>
    ensures { shown_frame result ≡ with_rest (shown_frame frame.entry) (shown_terms rest.now) }
{
    Frame { rest, ..frame }
}

// Whether a call is made when all words are known.
fn needs_call(frame: &Frame) -> bool
    ensures { result ≡ calls (shown_frame frame.now) }
{
    match frame.then {
        Then::Choose(_, _) => false,
        Then::Bind(_) => false,
        Then::Operate(_) => false,
        Then::Apply(_, _) => true,
    }
}
