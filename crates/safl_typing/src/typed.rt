//! Results of checking an expression: a width with a term, or a fault.

ghost use Rattle.std.specs.Prelude.{◌≡◌, ◌≢◌, ℕ, ◌<◌, ◌^◌, ◌&&◌, length, Err, IfOk};
ghost use Rattle.safl_term.specs.Slots.{HasSlots};
ghost use Rattle.safl_term.specs.Tree.{shown_term};
ghost use Rattle.safl_typing.specs.Typing.{innermost};
ghost use Rattle.safl_typing.specs.Walk.{fault, settle, check_number, sized, variable, is_known, is_any, wanted_by};
ghost use Rattle.safl_typing.specs.declared.typed.CheckErr.TheVariants as errors;
ghost use Rattle.safl_typing.specs.PlainScope.{shown_scope};
ghost use Rattle.safl_typing.specs.PlainTyped.{shown_wanted, HasWideWanted, HasWidthOfWord, Says, operand_wanted};

use crate::scope::{Scope, find_variable};
use safl_term::Term;
use safl_tree::Name;
use safl_word::{Fault, NoMemory, Raw, Rule, Word};
use std::alloc::{AllocError, AllocFailed};

/// Why a program is not checked: a fault of the source, a body that is too deep, or out of memory.
#[derive(Clone, Copy, Debug, PartialEq, Eq)]
pub enum CheckErr {
    Refused(Fault),
    TooDeep,
    NoMemory,
}

impl From<AllocError> for CheckErr {
    ghost from_gives = { λ _ e. e ≡ errors.NoMemory };

    fn from(_e: AllocError) -> CheckErr {
        CheckErr::NoMemory
    }
}

impl<T: Drop> From<AllocFailed<T>> for CheckErr {
    ghost from_gives = { λ _ e. e ≡ errors.NoMemory };

    fn from(_e: AllocFailed<T>) -> CheckErr {
        CheckErr::NoMemory
    }
}

impl From<NoMemory> for CheckErr {
    ghost from_gives = { λ _ e. e ≡ errors.NoMemory };

    fn from(_e: NoMemory) -> CheckErr {
        CheckErr::NoMemory
    }
}

/// How an expression is checked: with its width to be found, or against an expected width.
#[derive(Clone, Copy)]
pub enum Wanted {
    Any,
    Exactly(u8),
}

/// A width in bits, and the term that has it.
#[derive(Drop)]
pub struct Typed {
    pub width: u8,
    pub term: Term,
}

/// The fault of a rule that has no numbers.
pub fn refused(rule: Rule, place: u32) -> CheckErr
    ensures { result ≡ errors.Refused (fault rule place) }
{
    CheckErr::Refused(Fault::new(rule, place))
}

/// Whether an expression gets a width: it is rigid, or a width is expected.
pub fn has_width(wanted: Wanted, flexible: bool) -> bool
    ensures { result ≡ is_known (shown_wanted wanted) flexible }
{
    match wanted {
        Wanted::Any => !flexible,
        Wanted::Exactly(_) => true,
    }
}

/// Whether the width of an expression comes from what follows it, so that that is checked first.
pub fn comes_later(wanted: Wanted, flexible: bool) -> bool
    ensures { result ≡ (is_any (shown_wanted wanted) && flexible) }
{
    match wanted {
        Wanted::Any => flexible,
        Wanted::Exactly(_) => false,
    }
}

/// A binding is checked against its written width, or else its width is found.
pub fn as_written(width: Option<u8>) -> Wanted
    ensures { shown_wanted result ≡ wanted_by width }
{
    match width {
        Some(width) => Wanted::Exactly(width),
        None => Wanted::Any,
    }
}

/// An operand's width is found. But a flexible amount of a shift is checked against the width of what is shifted.
pub fn as_operand(shifted: Option<u8>, flexible: bool) -> Wanted
    ensures { shown_wanted result ≡ operand_wanted shifted flexible }
{
    match shifted {
        Some(width) if flexible => Wanted::Exactly(width),
        _ => Wanted::Any,
    }
}

/// An expression whose width was found. E12 if another width is expected.
pub fn settled(place: u32, wanted: Wanted, width: u8, term: Term) -> Result<Typed, CheckErr>
    ensures says { Says result (settle place (shown_wanted wanted) width (shown_term term)) }
    ensures slots { IfOk result (λ t. (n : ℕ) → HasSlots n term → HasSlots n t.term) }
    ensures memory { result ≢ Err errors.NoMemory }
{
    match wanted {
        Wanted::Any => Ok(Typed { width, term }),
        Wanted::Exactly(expected) => {
            if expected == width {
                return Ok(Typed { width, term });
            }
            Err(CheckErr::Refused(Fault::with(Rule::E12, place, expected as u32, width as u32)))
        }
    }
}

/// A number. E14 if no width is expected, E13 if it does not fit the expected width.
pub fn typed_number(place: u32, value: Raw, wanted: Wanted) -> Result<Typed, CheckErr>
    requires { HasWideWanted wanted }
    ensures says { Says result (check_number place value (shown_wanted wanted)) }
    ensures slots { IfOk result (λ t. (n : ℕ) → HasSlots n t.term) }
    ensures memory { result ≢ Err errors.NoMemory }
{
    match wanted {
        Wanted::Any => Err(refused(Rule::E14, place)),
        Wanted::Exactly(width) => match Word::new(width, value) {
            Some(word) => Ok(Typed {
                width,
                term: Term::Const(word),
            }),
            None => Err(refused(Rule::E13, place)),
        },
    }
}

/// A sized number. E13 if its value does not fit its width, E12 if another width is expected.
pub fn typed_sized(place: u32, width: u8, value: Raw, wanted: Wanted) -> Result<Typed, CheckErr>
    requires { HasWidthOfWord width }
    ensures says { Says result (sized place width value (shown_wanted wanted)) }
    ensures slots { IfOk result (λ t. (n : ℕ) → HasSlots n t.term) }
    ensures memory { result ≢ Err errors.NoMemory }
{
    match Word::new(width, value) {
        Some(word) => settled(place, wanted, width, Term::Const(word)),
        None => Err(refused(Rule::E13, place)),
    }
}

/// A variable. E08 if no variable of this name is in scope, E12 if another width is expected.
pub fn typed_variable(
    place: u32,
    scope: &Scope,
    name: &Name,
    wanted: Wanted,
) -> Result<Typed, CheckErr>
    requires { length (shown_scope scope.now) < 2 ^ 32 }
    ensures says { Says result (variable place (shown_wanted wanted) (innermost name.now 0 (shown_scope scope.now))) }
    ensures slots { IfOk result (λ t. (n : ℕ) → HasSlots n t.term) }
    ensures memory { result ≢ Err errors.NoMemory }
{
    match find_variable(scope, name) {
        Some(found) => settled(place, wanted, found.width, Term::Var(found.slot)),
        None => Err(refused(Rule::E08, place)),
    }
}
