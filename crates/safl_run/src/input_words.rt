//! The words of a net's inputs during a call.

ghost use Rattle.std.specs.Prelude.{◌≡◌, ◌<◌, ◌≤◌, ◌+◌, ◌∷◌, ◌++◌, length, take, drop, Some, IsSome, IfOk, OnOk, slice_get};
ghost use Rattle.safl_word.specs.Words.{Word};
ghost use Rattle.safl_net.specs.Making.{found, kind_at};
ghost use Rattle.safl_net.specs.Netlist.{width_of};
ghost use Rattle.safl_net.specs.Rules.{IsNetlist};
ghost use Rattle.safl_net.specs.Whole.{IsWhole};
ghost use Rattle.safl_run.specs.Rooms.{IsRoom, own_zero, zeros_of};

use safl_net::{Net, Sig, SigKind};
use safl_word::{NoMemory, Word};
use std::alloc::Global;

/// The words of the inputs in the first cycle of a call, in order, and those in its later cycles, which are 0. In the
/// first cycle `start` is 1; its place among the inputs is `start`.
#[derive(Drop)]
pub struct Room {
    pub first: Vec<Word>,
    pub later: Vec<Word>,
    pub start: usize,
}

impl Room {
    /// The room for the inputs of a net.
    pub fn new(alloc: Global, net: &Net) -> Result<Room, NoMemory>
        requires { IsWhole net.now }
        ensures { IfOk result (λ r. IsRoom net.now r) }
    {
        let start = inputs_before(net, signal_of(net, "start"));
        let mut first = zeros(alloc, net)?;
        let later = zeros(alloc, net)?;
        first[start] = Word::from_parts(1, 1);
        Ok(Room {
            first,
            later,
            start,
        })
    }
}

/// The signal of this name, or the one that the output of this name shows.
pub fn signal_of(net: &Net, name: &str) -> Sig
    requires { IsSome (found net.now name.now) }
    ensures signal { Some result.0 ≡ found net.now name.now }
    ensures netlist { IsNetlist net.now }
{
    let _count = net.signals();
    match net.find(name) {
        Some(s) => s,
        None => unreachable!(),
    }
}

// The word 0 for each input.
fn zeros(alloc: Global, net: &Net) -> Result<Vec<Word>, NoMemory>
    ensures { IfOk result (λ v. v.items ≡ zeros_of net.now.signals) }
{
    let mut words = Vec::new(alloc);
    'signals: for i in 0..net.signals() {
        push_zero(&mut words, net, Sig(i))?;
    }
    Ok(words)
}

// Appends the word 0 if the signal is an input.
fn push_zero(words: &mut Vec<Word>, net: &Net, signal: Sig) -> Result<(), NoMemory>
    requires known { signal.0 < length net.now.signals }
    requires netlist { IsNetlist net.now }
    ensures { OnOk result (words.new.items ≡ words.old.items ++ own_zero (kind_at net.now signal.0) (width_of net.now signal.0)) }
{
    if net.kind(signal) != SigKind::Input {
        return Ok(());
    }
    words.push(Word::from_parts(net.width(signal), 0))?;
    Ok(())
}

// How many inputs come before a signal.
fn inputs_before(net: &Net, signal: Sig) -> usize
    requires { signal.0 < length net.now.signals }
    ensures { result ≡ length (zeros_of (take signal.0 net.now.signals)) }
{
    let mut count = 0;
    'signals: for i in 0..signal.0 {
        count += inputs_at(net, Sig(i));
    }
    count
}

// 1 if the signal is an input, else 0.
fn inputs_at(net: &Net, signal: Sig) -> usize
    requires { signal.0 < length net.now.signals }
    ensures count { result ≡ length (own_zero (kind_at net.now signal.0) (width_of net.now signal.0)) }
    ensures small { result ≤ 1 }
{
    if net.kind(signal) == SigKind::Input {
        1
    } else {
        0
    }
}

/// Puts the arguments before and after the word at `place`.
pub fn put_arguments(words: &mut [Word], place: usize, args: &[Word])
    requires within { place ≤ length args.now }
    requires room { length words.old ≡ length args.now + 1 }
    ensures { (w : Word) → slice_get words.old place ≡ Some w → words.new ≡ take place args.now ++ w ∷ drop place args.now }
{
    words[..place].copy_from_slice(&args[..place]);
    words[place + 1..].copy_from_slice(&args[place..]);
}
