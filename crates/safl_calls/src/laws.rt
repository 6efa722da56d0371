//! Laws of the call machine, over the definitions alone.

ghost use Rattle.std.specs.Prelude.{ℕ, Bool};
ghost use Rattle.safl_term.specs.Program.{Program};
ghost use Rattle.safl_term.specs.WellFormed.{IsWellFormed};
ghost use Rattle.safl_sites.specs.Plan.{Suffices};
ghost use Rattle.safl_calls.specs.Interference.{BusySitesConflict, OneInUse, ShownWordsServe};
ghost use Rattle.safl_calls.specs.Laws.{AllMoves, Bounded, FewMoves, GoesOn, OneEvent, Right, SameCalls, SameNumber, SitesRest, Stops};
ghost use Rattle.safl_sites.specs.Conflicts.{IsSequential};
ghost use Rattle.safl_calls.specs.Cycles.{NoSooner};
ghost use Rattle.safl_calls.specs.Fixed.{IsFixed, IsShort};
ghost use Rattle.safl_calls.specs.Labels.{IsBlind};

/// If main has returned a word, it is main's value. The list then has three events for each call, less two for each
/// tail call.
pub fn right_law()
    ensures { (C : Program) → IsWellFormed C → Right C }
{}

/// Some event is enabled until main has returned, and none is afterwards.
pub fn progress_law()
    ensures goes_on { (C : Program) → IsWellFormed C → GoesOn C }
    ensures stops { (C : Program) → IsWellFormed C → Stops C }
{}

/// If main has a value, its number of calls bounds the length of every list of events.
pub fn bound_law()
    ensures { (C : Program) → IsWellFormed C → Bounded C }
{}

/// If main has a value, no list has more events other than Returns than two for each call, less one for each tail call.
/// If main has returned, the list has exactly that many.
pub fn moves_law()
    ensures most { (C : Program) → IsWellFormed C → FewMoves C }
    ensures all { (C : Program) → IsWellFormed C → AllMoves C }
{}

/// If main has returned, each function was started with exactly the argument lists of the evaluation, each as often as
/// the evaluation makes that call.
pub fn calls_law()
    ensures lists { (C : Program) → IsWellFormed C → SameCalls C }
    ensures number { (C : Program) → IsWellFormed C → SameNumber C }
{}

/// A site is unsent if its function does not run.
pub fn rest_law()
    ensures { (C : Program) → IsWellFormed C → SitesRest C }
{}

/// Two sites of one unit that are both wanted or in flight conflict.
pub fn conflict_law()
    ensures { (C : Program) → IsWellFormed C → BusySitesConflict C }
{}

/// At a unit without an arbiter at most one site is wanted or in flight.
pub fn arbiter_law()
    ensures { (C : Program) (arbiter kept : ℕ → Bool) → IsWellFormed C → Suffices C arbiter kept → OneInUse C arbiter }
{}

/// A circuit keeps the returned words of some sites only. What it shows gives the same answers and the same wants as
/// all returned words do.
pub fn kept_law()
    ensures { (C : Program) (arbiter kept : ℕ → Bool) → IsWellFormed C → Suffices C arbiter kept → ShownWordsServe C kept }
{}

/// If no two calls of a program can overlap, at most one event is enabled.
pub fn sequence_law()
    ensures { (C : Program) → IsWellFormed C → IsSequential C → OneEvent C }
{}

/// Where what changes a unit in a cycle counts from the next one on, main returns in no cycle before that of its span.
/// A span is at most two cycles for each call of the evaluation, less one for each tail call.
pub fn span_law()
    ensures sooner { (C : Program) → IsWellFormed C → NoSooner C }
    ensures short { (C : Program) → IsShort C }
{}

/// Where main's body takes a number of cycles by its text alone, every evaluation of main has that span.
pub fn fixed_law()
    ensures { (C : Program) → IsFixed C }
{}

/// Where by its text each body takes the same time and makes the same calls whatever its secret arguments are, a span
/// depends on public arguments alone.
pub fn blind_law()
    ensures { (C : Program) → IsBlind C }
{}
