//! Laws of the grammar and of printed texts, over the definitions alone.

ghost use Rattle.safl_tree.specs.Laws.{OneProgram, ProgramOrFault, NotBoth, OneFault, SpelledIsPrintable, PrintedSpells, SourcesAreShallow};

/// A text spells at most one program.
pub fn one_program_law()
    ensures { OneProgram }
{}

/// A text spells a program or has a first fault.
pub fn program_or_fault_law()
    ensures { ProgramOrFault }
{}

/// A text that spells a program has no first fault.
pub fn no_fault_beside_law()
    ensures { NotBoth }
{}

/// A text has at most one first fault.
pub fn one_fault_law()
    ensures { OneFault }
{}

/// A program that a text spells is printable: its names, widths and numbers are well formed and in range, its operators
/// have the right numbers of operands, and its text with as few parentheses as possible keeps the limits on nesting.
pub fn printable_law()
    ensures { SpelledIsPrintable }
{}

/// The text of a printable program spells that program, apart from places.
pub fn printed_law()
    ensures { PrintedSpells }
{}

/// No body of a source is more than 1,100 deep. A `case` counts as the let and the ifs that it stands for.
pub fn shallow_law()
    ensures { SourcesAreShallow }
{
    printable_law();
}
