//! The phases of a cycle.
//!
//! The inputs get their words, the registers are shown, the steps are evaluated, and the next state is kept.

ghost use Rattle.std.specs.Prelude.{◌≡◌, ℕ, ◌+◌, ◌*◌, ◌<◌, ◌≤◌, ◌^◌, List, length, Some, slice_get, slice_set, slice_index, false, true};
ghost use Rattle.safl_net.specs.declared.cell.Sig.{Sig};
ghost use Rattle.safl_sim.specs.declared.step.Group.{Group};
ghost use Rattle.safl_sim.specs.declared.step.Register.{Register};
ghost use Rattle.safl_order.specs.Order.{Order};
ghost use Rattle.safl_sim.specs.Places.{AreInputs};
ghost use Rattle.safl_sim.specs.Marks.{marked, first_register};
ghost use Rattle.safl_sim.specs.Steps.{Waits, Ready, LowStep, is_low, action_number};
ghost use Rattle.safl_sim.specs.Cycles.{KeepsStates, CyclesAgain, CyclesWith};
ghost use Rattle.safl_sim.specs.States.{AreAt, AreLow, HaveLowNexts, HaveNextsBelow, CanShow, CanKeep, AsManyMarks};
ghost use Rattle.safl_sim.specs.Writes.{HasPut, after_steps, AllReady, IsKeeping, KeepsUpTo};
ghost use Rattle.safl_sim.specs.Plans.{Gives, HasLists, InputsGoOn, HasGroup, IsShowing, ShowsUpTo, RegistersGoOn};
ghost use Rattle.safl_sim.specs.Plans.{ShowsAll, Evaluates, HasMask, IsRunning, RunsUpTo, RunsAll, RunsPlan};

use crate::marks::{Marks, take_held, word_count};
use crate::plan::Plan;
use crate::readers::{mark_group, mark_readers};
use crate::step::{Action, Group, Register, Step, act, act_low, choose};
use safl_net::Sig;
use safl_word::{Numbers, Raw, Word, low_half};

/// Writes a number to a place, and marks the place's readers if the number is new there.
#[inline(always)]
pub fn give(values: &mut Numbers, marks: &mut Marks, plan: &Plan, place: u32, number: Raw)
    requires lists { HasLists plan.now values.old marks.old }
    requires within { place < length values.old }
    ensures { Gives plan.now place number values.old values.new marks.old marks.new }
{
    let i = place as usize;
    if renew(values, i, number) {
        mark_readers(values, marks, plan, plan.starts[i], plan.starts[i + 1]);
    }
}

// Writes a number to a place, and says whether it is new there.
#[inline(always)]
fn renew(values: &mut Numbers, place: usize, number: Raw) -> bool
    requires { place < length values.old }
    ensures is { values.new ≡ slice_set values.old place number }
    ensures new { result ≡ false → slice_index values.old place ≡ number }
{
    if values.get(place) == number {
        return false;
    }
    values.set(place, number);
    true
}

// Writes a number of at most 64 bits to a place that has at most 64 bits, and says whether it is new there. No jump
// depends on the numbers.
#[inline(always)]
fn renew_low(values: &mut Numbers, place: usize, number: u64) -> bool
    requires within { place < length values.old }
    requires low { slice_index values.old place < 2 ^ 64 }
    ensures is { values.new ≡ slice_set values.old place number }
    ensures new { result ≡ false → slice_index values.old place ≡ number }
{
    let new = values.get_low(place) != number;
    values.set_low(place, number);
    new
}

// Writes a number to the place of a register, and says whether it is new there.
#[inline(always)]
fn renew_register(values: &mut Numbers, register: Register, number: Raw) -> bool
    requires within { register.signal.0 < length values.old }
    requires low { register.narrow ≡ true → (slice_index values.old register.signal.0 < 2 ^ 64) × (number < 2 ^ 64) }
    ensures is { values.new ≡ slice_set values.old register.signal.0 number }
    ensures new { result ≡ false → slice_index values.old register.signal.0 ≡ number }
{
    let place = register.signal.0 as usize;
    if register.narrow {
        renew_low(values, place, low_half(number))
    } else {
        renew(values, place, number)
    }
}

/// Writes the words of a cycle to the inputs.
pub fn put_words(values: &mut Numbers, marks: &mut Marks, plan: &Plan, words: &[Word])
    requires lists { HasLists plan.now values.old marks.old }
    requires long { length plan.now.inputs.items ≡ length words.now }
    requires within { (k : ℕ) (s : Sig) → slice_get plan.now.inputs.items k ≡ Some s → s.0 < length values.old }
    requires once { (i j : ℕ) (s t : Sig) → slice_get plan.now.inputs.items i ≡ Some s → slice_get plan.now.inputs.items j ≡ Some t → s.0 ≡ t.0 → i ≡ j }
    ensures put { HasPut plan.now.inputs.items words.now (length plan.now.inputs.items) values.old values.new }
    ensures long { length marks.new ≡ length marks.old }
    ensures goes { InputsGoOn plan.now words.now values.old values.new marks.old marks.new }
{
    'words: for i in 0..words.len() {
        give(values, marks, plan, plan.inputs[i].0, words[i].bits());
    }
}

/// Writes the number of a register to its place, so that its readers see it.
#[inline(always)]
pub fn show(
    values: &mut Numbers,
    marks: &mut Marks,
    plan: &Plan,
    register: Register,
    group: Group,
    number: Raw,
)
    requires lists { HasLists plan.now values.old marks.old }
    requires group { HasGroup plan.now register.signal.0 group }
    requires within { register.signal.0 < length values.old }
    requires low { register.narrow ≡ true → (slice_index values.old register.signal.0 < 2 ^ 64) × (number < 2 ^ 64) }
    ensures { Gives plan.now register.signal.0 number values.old values.new marks.old marks.new }
{
    if renew_register(values, register, number) {
        mark_group(values, marks, plan, group);
    }
}

/// Shows those registers of a word of marks that wait to be shown.
#[inline(always)]
pub fn show_word(
    values: &mut Numbers,
    marks: &mut Marks,
    waiting: &mut Marks,
    plan: &Plan,
    state: &[Raw],
    word: usize,
)
    requires word { word < length waiting.old }
    requires few { length waiting.old ≤ 2 ^ 32 }
    requires lists { HasLists plan.now values.old marks.old }
    requires registers { CanShow plan.now.registers.items values.old state.now }
    requires shows { IsShowing plan.now state.now (word * 64) values.old waiting.old }
    ensures count { AsManyMarks marks.old marks.new waiting.old waiting.new }
    ensures low { AreLow plan.now.registers.items values.new state.now }
    ensures shows { ShowsUpTo plan.now state.now (word * 64) ((word + 1) * 64) values.old values.new waiting.old waiting.new }
    ensures goes { RegistersGoOn plan.now state.now values.old values.new marks.old marks.new }
{
    let mut held = waiting.get(word);
    // No register before this one waits any longer. As in `run_word`, this is only there to tell why the loop ends.
    let mut place = word * 64;
    'registers: while let Some(taken) = take_held(held) {
        let i = word * 64 + taken.bit;
        held = taken.left;
        show(
            values,
            marks,
            plan,
            plan.registers[i],
            plan.groups[i],
            state[i],
        );
        place = i + 1;
    }
    waiting.put(word, 0);
}

/// Shows all registers that wait to be shown.
#[inline(always)]
pub fn show_registers(
    values: &mut Numbers,
    marks: &mut Marks,
    waiting: &mut Marks,
    plan: &Plan,
    state: &[Raw],
)
    requires lists { HasLists plan.now values.old marks.old }
    requires registers { CanShow plan.now.registers.items values.old state.now }
    requires waits { (now : List ℕ) × AreAt plan.now.registers.items state.now now × Waits plan.now.registers.items now values.old waiting.old }
    ensures count { AsManyMarks marks.old marks.new waiting.old waiting.new }
    ensures none { (k : ℕ) → marked waiting.new k ≡ 0 }
    ensures shown { ShowsAll plan.now state.now values.old values.new waiting.old }
    ensures goes { RegistersGoOn plan.now state.now values.old values.new marks.old marks.new }
{
    let end = waiting.count();
    let mut w = waiting.next(0, end);
    'words: while w < end {
        show_word(values, marks, waiting, plan, state, w);
        w = waiting.next(w + 1, end);
    }
}

// The number that a register's next signal has.
#[inline(always)]
fn next_number(values: &Numbers, register: Register) -> Raw
    requires within { register.next.0 < length values.now }
    requires low { register.narrow ≡ true → slice_index values.now register.next.0 < 2 ^ 64 }
    ensures { result ≡ slice_index values.now register.next.0 }
{
    let place = register.next.0 as usize;
    if register.narrow {
        Raw::from(values.get_low(place))
    } else {
        values.get(place)
    }
}

/// Keeps the number of a register's next signal as the register's state.
#[inline(always)]
pub fn keep(state: &mut [Raw], registers: &[Register], values: &Numbers, k: usize)
    requires known { k < length registers.now }
    requires states { length state.old ≡ length registers.now }
    requires next { HaveNextsBelow registers.now (length values.now) }
    requires low { HaveLowNexts registers.now values.now }
    ensures { (r : Register) → slice_get registers.now k ≡ Some r → state.new ≡ slice_set state.old k (slice_index values.now r.next.0) }
{
    state[k] = next_number(values, registers[k]);
}

/// Keeps the state of the marked registers of a word of marks, and lets them wait to be shown. The marks of registers
/// begin with a word of their own, so those of a word wait all at once.
#[inline(always)]
pub fn keep_word(
    state: &mut [Raw],
    marks: &mut Marks,
    waiting: &mut Marks,
    registers: &[Register],
    values: &Numbers,
    first: usize,
    word: usize,
)
    requires after { first ≤ word }
    requires word { word < length marks.old }
    requires registers { CanKeep registers.now values.now state.old marks.old waiting.old }
    requires keeps { (start was : List ℕ) × IsKeeping first registers.now values.now word start was state.old marks.old waiting.old }
    ensures count { AsManyMarks marks.old marks.new waiting.old waiting.new }
    ensures keeps { KeepsUpTo first registers.now values.now word (word + 1) state.old state.new marks.old marks.new waiting.old waiting.new }
{
    let mut held = marks.get(word);
    waiting.join(word - first, held);
    // No register before this one is marked any longer. As in `run_word`, this is only there to tell why the loop ends.
    let mut place = word * 64;
    'registers: while let Some(taken) = take_held(held) {
        let k = (word - first) * 64 + taken.bit;
        held = taken.left;
        keep(state, registers, values, k);
        place = word * 64 + taken.bit + 1;
    }
    marks.put(word, 0);
}

/// Keeps the numbers of next signals as the state of all marked registers, and lets these wait to be shown.
#[inline(always)]
pub fn keep_registers(
    state: &mut [Raw],
    marks: &mut Marks,
    waiting: &mut Marks,
    registers: &[Register],
    values: &Numbers,
    first: usize,
)
    requires first { first ≤ length marks.old }
    requires registers { CanKeep registers.now values.now state.old marks.old waiting.old }
    requires keeps { (start was : List ℕ) × IsKeeping first registers.now values.now first start was state.old marks.old waiting.old }
    ensures count { AsManyMarks marks.old marks.new waiting.old waiting.new }
    ensures keeps { KeepsUpTo first registers.now values.now first (length marks.new) state.old state.new marks.old marks.new waiting.old waiting.new }
{
    let end = marks.count();
    let mut w = marks.next(first, end);
    'words: while w < end {
        keep_word(state, marks, waiting, registers, values, first, w);
        w = marks.next(w + 1, end);
    }
}

// Evaluates a step, and says whether its wire's number is new.
#[inline(always)]
fn act_anew(values: &mut Numbers, step: &Step) -> bool
    requires within { step.now.wire.0 < length values.old }
    requires ready { Ready values.old step.now.action }
    requires low { LowStep values.old step.now }
    ensures is { values.new ≡ slice_set values.old step.now.wire.0 (action_number (slice_index values.old) step.now.action) }
    ensures new { result ≡ false → slice_index values.old step.now.wire.0 ≡ action_number (slice_index values.old) step.now.action }
{
    match act_low(&step.action, values) {
        Some(number) => renew_low(values, step.wire.0 as usize, number),
        None => act_wide(values, step),
    }
}

// Evaluates a step that may have more than 64 bits, and says whether its wire's number is new. It is a function of its
// own so that the loop over narrow steps keeps what it needs in registers.
#[inline(never)]
fn act_wide(values: &mut Numbers, step: &Step) -> bool
    requires within { step.now.wire.0 < length values.old }
    requires ready { Ready values.old step.now.action }
    requires wide { is_low step.now.action ≡ false }
    ensures is { values.new ≡ slice_set values.old step.now.wire.0 (action_number (slice_index values.old) step.now.action) }
    ensures new { result ≡ false → slice_index values.old step.now.wire.0 ≡ action_number (slice_index values.old) step.now.action }
{
    let number = act(&step.action, values);
    renew(values, step.wire.0 as usize, number)
}

/// Evaluates a step. If its wire's number is new, marks the readers of the wire that are not near, and returns the mask
/// of the near ones.
#[inline(always)]
pub fn evaluate(values: &mut Numbers, marks: &mut Marks, plan: &Plan, step: &Step, near: u64) -> u64
    requires lists { HasLists plan.now values.old marks.old }
    requires within { step.now.wire.0 < length values.old }
    requires ready { Ready values.old step.now.action }
    requires low { LowStep values.old step.now }
    requires near { (i : ℕ) × HasMask plan.now i step.now near }
    ensures long { length marks.new ≡ length marks.old }
    ensures given { Evaluates plan.now step.now near result values.old values.new marks.old marks.new }
{
    // Most steps are choices. What follows a choice is written out for it, so that no jump leads to the code that the
    // others share.
    if let Action::Choose(c, a, b) = step.action {
        let chosen = choose(Raw::from(values.get_low(c as usize)), a, b);
        let number = values.get_low(chosen as usize);
        if !renew_low(values, step.wire.0 as usize, number) {
            return 0;
        }
        mark_readers(values, marks, plan, step.first, step.end);
        return near;
    }
    if !act_anew(values, step) {
        return 0;
    }
    mark_readers(values, marks, plan, step.first, step.end);
    near
}

/// Which steps are evaluated in a cycle.
#[derive(Clone, Copy, PartialEq, Eq)]
pub enum Pace {
    /// All steps, marked or not.
    All,
    /// Only the marked steps.
    Marked,
    /// Only the marked steps, and they are counted.
    Counted,
}

/// Evaluates the marked steps of a word of marks. Returns their number if they are counted, else 0.
#[inline(always)]
pub fn run_word(
    values: &mut Numbers,
    marks: &mut Marks,
    plan: &Plan,
    word: usize,
    counted: bool,
) -> usize
    requires within { word < length marks.old }
    requires few { length marks.old ≤ 2 ^ 32 }
    requires steps { (word + 1) * 64 ≤ first_register (length plan.now.steps.items) }
    requires runs { IsRunning plan.now (word * 64) values.old marks.old }
    ensures count { result ≤ 64 }
    ensures long { length marks.new ≡ length marks.old }
    ensures runs { RunsUpTo plan.now (word * 64) ((word + 1) * 64) values.old values.new marks.old marks.new }
{
    let steps = &plan.steps[word * 64..];
    let masks = &plan.masks[word * 64..];
    let mut held = marks.get(word);
    let turn = usize::from(counted);
    let mut count = 0;
    // No step before this one is marked any longer. The program does not read it: it is only there to tell why the loop
    // ends.
    let mut place = word * 64;
    'steps: while let Some(taken) = take_held(held) {
        // The mask is read before the step, since which step comes next is not known without the mask.
        let near = masks[taken.bit];
        held = taken.left | evaluate(values, marks, plan, &steps[taken.bit], near);
        count += turn;
        place = word * 64 + taken.bit + 1;
    }
    marks.put(word, 0);
    count
}

/// Evaluates the marked steps in order. Returns their number if they are counted, else 0.
// Inlined, so that one of its two copies has a loop that does not count.
#[inline(always)]
pub fn run_marked(values: &mut Numbers, marks: &mut Marks, plan: &Plan, counted: bool) -> usize
    requires few { length marks.old ≤ 2 ^ 32 }
    requires runs { IsRunning plan.now 0 values.old marks.old }
    ensures long { length marks.new ≡ length marks.old }
    ensures runs { RunsUpTo plan.now 0 (first_register (length plan.now.steps.items)) values.old values.new marks.old marks.new }
{
    let mut count = 0;
    let end = word_count(plan.steps.len());
    let mut w = marks.next(0, end);
    'words: while w < end {
        count += run_word(values, marks, plan, w, counted);
        w = marks.next(w + 1, end);
    }
    count
}

/// Evaluates all steps in order.
pub fn run_all(values: &mut Numbers, steps: &[Step])
    requires { AllReady steps.now values.old }
    ensures { values.new ≡ after_steps steps.now values.old }
{
    'steps: for s in steps {
        write(values, s);
    }
}

// Evaluates a step, and marks nothing.
#[inline(always)]
fn write(values: &mut Numbers, step: &Step)
    requires within { step.now.wire.0 < length values.old }
    requires ready { Ready values.old step.now.action }
    requires low { LowStep values.old step.now }
    ensures { values.new ≡ slice_set values.old step.now.wire.0 (action_number (slice_index values.old) step.now.action) }
{
    let place = step.wire.0 as usize;
    match act_low(&step.action, values) {
        Some(number) => values.set_low(place, number),
        None => {
            let number = act(&step.action, values);
            values.set(place, number);
        }
    }
}

/// Evaluates all steps and marks all registers, or evaluates only the marked steps. Returns the number of marked steps
/// if they are counted, else 0.
pub fn run_steps(values: &mut Numbers, marks: &mut Marks, plan: &Plan, pace: Pace) -> usize
    requires few { length marks.old ≤ 2 ^ 32 }
    requires runs { (o : Order) × (held : List ℕ) × (start : List ℕ) × RunsPlan o plan.now plan.now.registers.items held start 0 values.old marks.old }
    ensures long { length marks.new ≡ length marks.old }
    ensures runs { RunsAll plan.now values.old values.new marks.old marks.new }
{
    match pace {
        Pace::All => {
            let words = word_count(plan.steps.len());
            let first = words * 64;
            run_all(values, plan.steps.as_slice());
            marks.clear();
            marks.mark_range(first, first + plan.registers.len());
            0
        }
        Pace::Marked => run_marked(values, marks, plan, false),
        Pace::Counted => run_marked(values, marks, plan, true),
    }
}

/// Runs the rest of a cycle whose inputs have their words. `pace` says which steps are evaluated. Returns the number of
/// marked steps if they are counted, else 0.
#[inline(always)]
pub fn proceed(
    values: &mut Numbers,
    state: &mut [Raw],
    marks: &mut Marks,
    waiting: &mut Marks,
    plan: &Plan,
    pace: Pace,
) -> usize
    requires { (o : Order) × KeepsStates o plan.now marks.old waiting.old state.old values.old }
    ensures { CyclesAgain plan.now state.old state.new values.old values.new marks.old marks.new waiting.old waiting.new }
{
    let registers = plan.registers.as_slice();
    show_registers(values, marks, waiting, plan, state);
    let count = run_steps(values, marks, plan, pace);
    let first = word_count(plan.steps.len());
    keep_registers(state, marks, waiting, registers, values, first);
    count
}

/// Runs a cycle with these words of the inputs. `pace` says which steps are evaluated. Returns the number of marked
/// steps if they are counted, else 0.
pub fn cycle(
    values: &mut Numbers,
    state: &mut [Raw],
    marks: &mut Marks,
    waiting: &mut Marks,
    plan: &Plan,
    words: &[Word],
    pace: Pace,
) -> usize
    requires { (o : Order) × KeepsStates o plan.now marks.old waiting.old state.old values.old × AreInputs o.net words.now }
    ensures { CyclesWith plan.now words.now state.old state.new values.old values.new marks.old marks.new waiting.old waiting.new }
{
    put_words(values, marks, plan, words);
    proceed(values, state, marks, waiting, plan, pace)
}
