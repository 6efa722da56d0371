//! Laws of programs and their meaning, over the definitions alone.

ghost use Rattle.safl_term.specs.Laws.{GivesWords, OneAnswer, OneEvaluation, OnePair};
ghost use Rattle.safl_term.specs.Program.{Program};
ghost use Rattle.safl_term.specs.WellFormed.{IsWellFormed};

/// The meaning by derivations and the meaning by a function with a number of calls agree. Main gives at most one word,
/// in one number of calls. All evaluations of main on the same arguments make the same calls and loops.
pub fn meaning_law()
    ensures same { (C : Program) → OneAnswer C }
    ensures pair { (C : Program) → OnePair C }
    ensures evaluation { (C : Program) → OneEvaluation C }
{}

/// On words of the widths of main's parameters a well-formed program gives a word of main's width.
pub fn values_law()
    ensures { (C : Program) → IsWellFormed C → GivesWords C }
{}
