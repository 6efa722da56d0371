//! Laws of reshaped programs, over the definitions alone.

ghost use Rattle.safl_reshape.specs.Laws.{UnfoldingSpares, CopyIsAlike, ReshapedKeepsLists, FormsHaveNoPlaces, PrintedKeepsForm, LevelsAreSpelled};

use safl_term::laws::meaning_law;
use safl_tree::laws::printed_law;

/// Unfolding a call does not change what a program gives. It saves one call each time that the call was made.
pub fn unfolding_law()
    ensures { UnfoldingSpares }
{
    meaning_law();
}

/// Copying a function for a call changes neither what a program gives nor its number of calls.
pub fn copy_law()
    ensures { CopyIsAlike }
{
    meaning_law();
}

/// Copying and unfolding never pass the limit on parameters or the limit on bindings.
pub fn lists_law()
    ensures { ReshapedKeepsLists }
{}

/// Programs that differ only in places have the same form.
pub fn places_law()
    ensures { FormsHaveNoPlaces }
{}

/// If a program has a form, its printed text spells a program of the same form. So what `copy_site` and `unfold_site`
/// give is accepted when its text is read, and keeps what they promise.
pub fn printed_form_law()
    ensures { PrintedKeepsForm }
{
    printed_law();
    places_law();
}

/// A well formed program keeps the levels exactly if its printed text spells it, apart from places.
pub fn levels_law()
    ensures { LevelsAreSpelled }
{}
