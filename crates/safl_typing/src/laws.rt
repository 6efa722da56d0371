//! Laws of checking, over the definitions alone.

ghost use Rattle.safl_typing.specs.Laws.{WalkGivesForm, FaultOrForm, OneForm, FormsAreChecked, AloneUnits};

/// Checking gives exactly the form that the program has: it finds no fault exactly if there is a form, and then it
/// gives that form.
pub fn walk_law()
    ensures { WalkGivesForm }
{}

/// A program has a first fault exactly if it has no form.
pub fn fault_or_form_law()
    ensures { FaultOrForm }
{}

/// A program has at most one numbered form: one width, one term and one number for each site.
pub fn one_form_law()
    ensures { OneForm }
{}

/// A program that has a form, with shallow bodies and lets that name their slots, is well formed, within the limits and
/// in the order of the text. So it has all that is asked of a checked program.
pub fn forms_are_checked_law()
    ensures { FormsAreChecked }
{}

/// If no definition is joined to the one before it, each function is a group of its own.
pub fn alone_law()
    ensures { AloneUnits }
{}
