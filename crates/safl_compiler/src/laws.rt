//! Laws of sources, over the definitions alone.

ghost use Rattle.safl_compiler.specs.Laws.{OneProgram, ProgramOrFault, NotBoth, OneFault};

use safl_tree::laws as grammar;
use safl_typing::laws as checking;

/// A source spells at most one program.
pub fn one_program_law()
    ensures { OneProgram }
{
    grammar::one_program_law();
    checking::one_form_law();
}

/// A source spells an accepted program or has a first fault.
pub fn program_or_fault_law()
    ensures { ProgramOrFault }
{
    grammar::program_or_fault_law();
    grammar::printable_law();
    checking::fault_or_form_law();
}

/// A source that spells an accepted program has no first fault.
pub fn not_both_law()
    ensures { NotBoth }
{
    grammar::one_program_law();
    grammar::no_fault_beside_law();
    grammar::printable_law();
    checking::fault_or_form_law();
}

/// A source has at most one first fault.
pub fn one_fault_law()
    ensures { OneFault }
{
    grammar::one_program_law();
    grammar::no_fault_beside_law();
    grammar::one_fault_law();
}
