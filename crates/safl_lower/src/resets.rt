//! Words that the registers of arguments take, with the choice of 0 made last.
//!
//! A flip-flop that takes 0 if a bit says so, and else another word, needs no logic for the 0: it has a reset. So where
//! such a register may take 0, and other words too, the choice of 0 is taken out of the choices between these.

ghost use Rattle.std.specs.Prelude.{◌≡◌, ℕ, ◌+◌, ◌*◌, ◌≤◌, List, Some, length, slice_get, IfOk, OnOk};
ghost use Rattle.safl_word.specs.Limits.{width_max};
ghost use Rattle.safl_net.specs.Names.{IsTidy};
ghost use Rattle.safl_net.specs.Growth.{Val, words, Wired};
ghost use Rattle.safl_net.specs.Settled.{IsSettled};
ghost use Rattle.safl_lower.specs.Lowering.{Shaped};
ghost use Rattle.safl_lower.specs.Sources.{IsSource, AreSources, Builds, CanGrow};
ghost use Rattle.safl_lower.specs.Tables.{FitsIn};
ghost use Rattle.safl_lower.specs.Resets.{zero_word, HasWordOf, HasChosen, Splits, IsOfForm, IsConstantForm, IsChoiceForm, KeepsWords, AreLoaded, KeepsShape, Loads, KeepsWidth, LoadsLast, ChoosesWidth};

use crate::gates::{constant, mux};
use crate::joins::choose;
use crate::loads::Load;
use crate::lowered::{Lowered, Readiness};
use safl_net::{Net, Op, Sig, SigKind};
use safl_word::{NoMemory, Word};
use std::alloc::Global;

// The number of choices that are looked into in the words of tail calls, and in those of calls. With 7 these are all
// within three of one another, with 3 all within two.
const TAIL_CALLS: u32 = 7;

const CALLS: u32 = 3;

/// What the cell of a signal says of its word: it is always 0; a bit chooses it from two signals; or anything else.
#[derive(Clone, Copy)]
pub enum Form {
    Zero,
    Choice(Sig, Sig, Sig),
    Other,
}

/// The words that registers take: those of `load` if it is there and taken, else those of `looped` if it is there and
/// taken, else `operands`. The choice of 0 is made last.
pub fn reset_words(
    alloc: Global,
    net: &mut Net,
    load: &Option<Load>,
    looped: &Option<Load>,
    operands: &[Sig],
) -> Result<Vec<Sig>, NoMemory>
    requires settled { IsSettled net.old }
    requires fits { (ws : List ℕ) × FitsIn net.old load.now ws × FitsIn net.old looped.now ws × AreSources net.old operands.now ws }
    requires room { CanGrow net.old (62 * length operands.now) }
    ensures built { OnOk result (Builds net.old net.new (62 * length operands.now)) }
    ensures tidy { IsTidy net.new }
    ensures fits { KeepsWords result net.old net.new load.now looped.now operands.now }
    ensures shows { IfOk result (λ xs. AreLoaded net.new load.now looped.now operands.now xs.items) }
{
    let mut all = Vec::new(alloc);
    for i in 0..operands.len() {
        let now = word_of(operands[i]);
        let kept = loaded(net, looped, i, TAIL_CALLS, now)?;
        let word = last_word(net, load, i, CALLS, kept, operands[i])?;
        all.push(word)?;
    }
    Ok(all)
}

// The word of a signal, which is ready.
fn word_of(s: Sig) -> Lowered
    ensures ready { result.ready ≡ Readiness.Always }
    ensures value { result.value ≡ s }
{
    Lowered {
        ready: Readiness::Always,
        value: s,
    }
}

// The word of a load at a place, if the load is there and taken, else `other`. At most `count` choices of the load's
// word are looked into.
fn loaded(
    net: &mut Net,
    load: &Option<Load>,
    place: usize,
    count: u32,
    other: Lowered,
) -> Result<Lowered, NoMemory>
    requires settled { IsSettled net.old }
    requires fits { (ws : List ℕ) × (w : ℕ) × FitsIn net.old load.now ws × (slice_get ws place ≡ Some w) × Shaped net.old other w }
    requires room { CanGrow net.old (5 * count + 5) }
    ensures tidy { IsTidy net.new }
    ensures built { OnOk result (Builds net.old net.new (5 * count + 5)) }
    ensures shape { KeepsShape result net.old net.new load.now place other }
    ensures value { Loads result net.old net.new load.now place other }
{
    match load {
        None => Ok(other),
        Some(load) => {
            let word = split(net, load.words[place], count)?;
            choose(net, word_of(load.bit), word, other)
        }
    }
}

// The word of a load at a place, if the load is there and taken, else that of `other`, or 0 where it is not ready. At
// most `count` choices of the load's word are looked into. The signal `like` has the word's width.
fn last_word(
    net: &mut Net,
    load: &Option<Load>,
    place: usize,
    count: u32,
    other: Lowered,
    like: Sig,
) -> Result<Sig, NoMemory>
    requires settled { IsSettled net.old }
    requires fits { (ws : List ℕ) × (w : ℕ) × FitsIn net.old load.now ws × (slice_get ws place ≡ Some w) × Shaped net.old other w × IsSource net.old like w }
    requires room { CanGrow net.old (5 * count + 7) }
    ensures tidy { IsTidy net.new }
    ensures built { OnOk result (Builds net.old net.new (5 * count + 7)) }
    ensures fits { KeepsWidth result net.old net.new load.now place other like }
    ensures value { LoadsLast result net.old net.new load.now place other like }
{
    match load {
        None => {
            let word = with_reset(net, other, like)?;
            Ok(word)
        }
        Some(load) => {
            let s = load.words[place];
            let word = split(net, s, count)?;
            let last = last_choice(net, load.bit, s, word, other, like)?;
            Ok(last)
        }
    }
}

// The word of `s`, of which `word` says where it is 0, if the bit is 1; else that of `other`, or 0 where it is not
// ready. If the word is always 0, and the other one never known to be, the choice of 0 is the last one already.
fn last_choice(
    net: &mut Net,
    bit: Sig,
    s: Sig,
    word: Lowered,
    other: Lowered,
    like: Sig,
) -> Result<Sig, NoMemory>
    requires test { IsSource net.old bit 1 }
    requires branches { (w : ℕ) × IsSource net.old s w × Shaped net.old word w × Shaped net.old other w × IsSource net.old like w }
    requires room { CanGrow net.old 7 }
    ensures tidy { IsTidy net.new }
    ensures built { OnOk result (Builds net.old net.new 7) }
    ensures fits { ChoosesWidth result net.old net.new s word other like }
    ensures value { (w : ℕ) → HasWordOf net.old w s word → IsSource net.old like w → IfOk result (λ r. HasChosen net.new bit s w other r) }
{
    match (word.ready, other.ready) {
        (Readiness::Never, Readiness::Always) => {
            let chosen = mux(net, bit, s, other.value)?;
            Ok(chosen)
        }
        _ => {
            let next = choose(net, word_of(bit), word, other)?;
            let last = with_reset(net, next, like)?;
            Ok(last)
        }
    }
}

// The word of a signal, ready where it is not known to be 0. At most `count` choices are looked into.
#[cycle(split)]
fn split(net: &mut Net, s: Sig, count: u32) -> Result<Lowered, NoMemory>
    requires settled { IsSettled net.old }
    requires source { (w : ℕ) × IsSource net.old s w }
    requires room { CanGrow net.old (5 * count) }
    ensures tidy { IsTidy net.new }
    ensures built { OnOk result (Builds net.old net.new (5 * count)) }
    ensures shape { (w : ℕ) → IsSource net.old s w → IfOk result (λ r. Shaped net.new r w) }
    ensures value { (w : ℕ) → IsSource net.old s w → IfOk result (λ r. HasWordOf net.new w s r) }
{
    match form_of(net, s) {
        Form::Zero => Ok(Lowered {
            ready: Readiness::Never,
            value: s,
        }),
        Form::Other => Ok(word_of(s)),
        Form::Choice(c, a, b) => {
            if count == 0 {
                return Ok(word_of(s));
            }
            let below = (count - 1) / 2;
            let yes = split(net, a, below)?;
            let no = split(net, b, below)?;
            join(net, s, c, yes, no)
        }
    }
}

// The word of `s`, which `c` chooses from two others. If neither of these may be 0 it is left as it is.
fn join(net: &mut Net, s: Sig, c: Sig, yes: Lowered, no: Lowered) -> Result<Lowered, NoMemory>
    requires test { IsSource net.old c 1 }
    requires branches { (w : ℕ) × IsSource net.old s w × Shaped net.old yes w × Shaped net.old no w }
    requires room { CanGrow net.old 5 }
    ensures built { Builds net.old net.new 5 }
    ensures shape { (w : ℕ) → IsSource net.old s w → Shaped net.old yes w → Shaped net.old no w → IfOk result (λ r. Shaped net.new r w) }
    ensures value { (w : ℕ) → Splits net.old w s c yes no → IfOk result (λ r. HasWordOf net.new w s r) }
{
    match (yes.ready, no.ready) {
        (Readiness::Always, Readiness::Always) => Ok(word_of(s)),
        _ => choose(net, word_of(c), yes, no),
    }
}

// The word if it is ready, else 0. It has the width of the signal `like`.
fn with_reset(net: &mut Net, word: Lowered, like: Sig) -> Result<Sig, NoMemory>
    requires shape { (w : ℕ) × Shaped net.old word w × IsSource net.old like w }
    requires room { CanGrow net.old 2 }
    ensures tidy { IsTidy net.new }
    ensures built { OnOk result (Builds net.old net.new 2) }
    ensures fits { (w : ℕ) → Shaped net.old word w → IsSource net.old like w → IfOk result (λ s. IsSource net.new s w) }
    ensures value { (w : ℕ) → IsSource net.old like w → IfOk result (λ s. HasWordOf net.new w s word) }
{
    // the contract of this call says that the net is a netlist
    let _count = net.signals();
    let width = net.width(like);
    match word.ready {
        Readiness::Always => Ok(word.value),
        Readiness::Never => {
            let zero = zeros(net, width)?;
            Ok(zero)
        }
        Readiness::When(bit) => {
            let zero = zeros(net, width)?;
            let chosen = mux(net, bit, word.value, zero)?;
            Ok(chosen)
        }
    }
}

// The word 0 of a width.
fn zeros(net: &mut Net, width: u8) -> Result<Sig, NoMemory>
    requires some { 1 ≤ width }
    requires most { width ≤ width_max }
    requires room { CanGrow net.old 1 }
    ensures built { Builds net.old net.new 1 }
    ensures fits { IfOk result (λ s. IsSource net.new s width) }
    ensures value { IfOk result (λ s. (v : Val) → Wired net.new v → v s.0 ≡ zero_word width) }
{
    match Word::new(width, 0) {
        Some(word) => constant(net, word),
        None => unreachable!(),
    }
}

// What the cell of a signal says.
fn form_of(net: &Net, s: Sig) -> Form
    requires settled { IsSettled net.now }
    requires source { (w : ℕ) × IsSource net.now s w }
    ensures { (w : ℕ) → IsSource net.now s w → IsOfForm net.now s w result }
{
    // the contract of this call says that the net is a netlist
    let _count = net.signals();
    match net.kind(s) {
        SigKind::Wire => {}
        _ => return Form::Other,
    }
    match net.cell(s) {
        None => Form::Other,
        Some(cell) => match cell.op {
            Op::Const(word) => constant_form(word),
            Op::Mux => choice_form(cell.operands.as_slice()),
            _ => Form::Other,
        },
    }
}

// Whether a word is 0.
fn constant_form(word: Word) -> Form
    ensures { IsConstantForm word result }
{
    if word.bits() == 0 {
        Form::Zero
    } else {
        Form::Other
    }
}

// The choice between three operands.
fn choice_form(operands: &[Sig]) -> Form
    requires { length operands.now ≡ 3 }
    ensures { IsChoiceForm operands.now result }
{
    Form::Choice(operands[0], operands[1], operands[2])
}
