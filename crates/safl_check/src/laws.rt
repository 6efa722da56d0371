//! Laws of the numbered form of a program.

ghost use Rattle.safl_check.specs.Laws.{FormsTellPrograms, FormsAreNumbered};

/// If two checked programs have one form, they are the same program in numbers, with the same names.
pub fn forms_tell_programs_law()
    ensures { FormsTellPrograms }
{}

/// A checked program is, in numbers, the program that its form stands for, with the same names.
pub fn forms_are_numbered_law()
    ensures { FormsAreNumbered }
{}
