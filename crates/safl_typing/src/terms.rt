//! Building terms from the terms of their parts.

ghost use Rattle.std.specs.Prelude.{◌≡◌, ℕ, ◌+◌, ◌++◌, [], ◌∷◌, length, IfOk, OnOk, Ok};
ghost use Rattle.std.specs.List.{AllByRecursion};
ghost use Rattle.safl_term.specs.Slots.{HasSlots};
ghost use Rattle.safl_term.specs.Terms.{Nil, Cons, If, Let, Op, Call, Loop};
ghost use Rattle.safl_term.specs.Tree.{shown_term, shown_terms};
ghost use Rattle.safl_typing.specs.Typing.{slots};
ghost use Rattle.safl_typing.specs.Walk.{settle};
ghost use Rattle.safl_typing.specs.Plain.{shown_bindings};
ghost use Rattle.safl_typing.specs.PlainHeads.{shown_slots};
ghost use Rattle.safl_typing.specs.PlainTyped.{shown_wanted, shown_all_typed, Says, SaysAll, SaysAlike, SaysNoOperand};

use crate::expression::Bound;
use crate::heads::Slot;
use crate::typed::{CheckErr, Typed, Wanted, refused, settled};
use safl_term::Term;
use safl_tree::Name;
use safl_word::{NoMemory, Primitive, Rule};
use std::alloc::Global;

/// The widths of several expressions, in bits, and their terms.
#[derive(Drop)]
pub struct TypedAll {
    pub widths: Vec<u8>,
    pub terms: Vec<Term>,
}

/// The terms of several expressions of one width, and this width in bits.
#[derive(Drop)]
pub struct TypedAlike {
    pub width: u8,
    pub terms: Vec<Term>,
}

/// The result of checking no expressions.
pub fn none_typed(alloc: Global) -> TypedAll
    ensures none { shown_all_typed result ≡ record { widths = []; terms = Nil } }
    ensures slots { (n : ℕ) → AllByRecursion (HasSlots n) result.terms.items }
{
    TypedAll {
        widths: Vec::new(alloc),
        terms: Vec::new(alloc),
    }
}

/// The result of checking no operands. E14 if no width is expected.
pub fn none_alike(alloc: Global, place: u32, wanted: Wanted) -> Result<TypedAlike, CheckErr>
    ensures says { SaysNoOperand result place wanted }
    ensures slots { IfOk result (λ t. (n : ℕ) → AllByRecursion (HasSlots n) t.terms.items) }
{
    match wanted {
        Wanted::Any => Err(refused(Rule::E14, place)),
        Wanted::Exactly(width) => Ok(TypedAlike {
            width,
            terms: Vec::new(alloc),
        }),
    }
}

/// The result with one expression before the others.
pub fn put_first(first: Typed, rest: TypedAll) -> Result<TypedAll, CheckErr>
    ensures says { SaysAll result
        (Ok (record { widths = first.width ∷ rest.widths.items; terms = Cons (shown_term first.term) (shown_terms rest.terms.items) })) }
    ensures slots { IfOk result (λ t.
        (n : ℕ) → HasSlots n first.term → AllByRecursion (HasSlots n) rest.terms.items → AllByRecursion (HasSlots n) t.terms.items) }
{
    let mut all = rest;
    all.widths.insert(0, first.width)?;
    all.terms.insert(0, first.term)?;
    Ok(all)
}

/// The result with one operand before the others. All have width `width`.
pub fn put_operand(width: u8, first: Term, rest: Vec<Term>) -> Result<TypedAlike, CheckErr>
    ensures says { SaysAlike result (Ok (record { width = width; terms = Cons (shown_term first) (shown_terms rest.items) })) }
    ensures slots { IfOk result (λ t. (n : ℕ) → HasSlots n first → AllByRecursion (HasSlots n) rest.items → AllByRecursion (HasSlots n) t.terms.items) }
{
    let mut terms = rest;
    terms.insert(0, first)?;
    Ok(TypedAlike { width, terms })
}

/// The term of an if.
pub fn make_if(
    alloc: Global,
    width: u8,
    test: Term,
    first: Term,
    second: Term,
) -> Result<Typed, CheckErr>
    ensures says { Says result (Ok (record { width = width; term = If (shown_term test) (shown_term first) (shown_term second) })) }
    ensures slots { IfOk result (λ t. (n : ℕ) → HasSlots n test → HasSlots n first → HasSlots n second → HasSlots n t.term) }
{
    let test = Box::new(alloc, test)?;
    let first = Box::new(alloc, first)?;
    let second = Box::new(alloc, second)?;
    let term = Term::If(test, first, second);
    Ok(Typed { width, term })
}

/// The term of a let whose first binding is in slot `slot`.
pub fn make_let(
    alloc: Global,
    width: u8,
    slot: u32,
    bound: Vec<Term>,
    body: Term,
) -> Result<Typed, CheckErr>
    ensures says { Says result (Ok (record { width = width; term = Let (shown_terms bound.items) (shown_term body) })) }
    ensures slots { IfOk result (λ t. AllByRecursion (HasSlots slot) bound.items → HasSlots (slot + length bound.items) body → HasSlots slot t.term) }
{
    let body = Box::new(alloc, body)?;
    let term = Term::Let(slot, bound, body);
    Ok(Typed { width, term })
}

/// The term of an operator whose operands have the width of the result.
pub fn make_operation(width: u8, operator: Primitive, operands: Vec<Term>) -> Typed
    ensures width { result.width ≡ width }
    ensures term { shown_term result.term ≡ Op operator (shown_terms operands.items) }
    ensures slots { (n : ℕ) → AllByRecursion (HasSlots n) operands.items → HasSlots n result.term }
{
    let term = Term::Op(operator, operands);
    Typed { width, term }
}

/// The term of an operator whose width was found. E12 if another width is expected.
pub fn settled_operation(
    place: u32,
    wanted: Wanted,
    width: u8,
    operator: Primitive,
    operands: Vec<Term>,
) -> Result<Typed, CheckErr>
    ensures says { Says result (settle place (shown_wanted wanted) width (Op operator (shown_terms operands.items))) }
    ensures slots { IfOk result (λ t. (n : ℕ) → AllByRecursion (HasSlots n) operands.items → HasSlots n t.term) }
{
    settled(place, wanted, width, Term::Op(operator, operands))
}

/// The term of a call of a function of an earlier group. E12 if another width is expected.
pub fn settled_call(
    place: u32,
    wanted: Wanted,
    width: u8,
    function: u32,
    site: u32,
    arguments: Vec<Term>,
) -> Result<Typed, CheckErr>
    ensures says { Says result (settle place (shown_wanted wanted) width (Call function site (shown_terms arguments.items))) }
    ensures slots { IfOk result (λ t. (n : ℕ) → AllByRecursion (HasSlots n) arguments.items → HasSlots n t.term) }
{
    settled(place, wanted, width, Term::Call(function, site, arguments))
}

/// The term of a tail call of a function of the caller's own group. E12 if another width is expected.
pub fn settled_loop(
    place: u32,
    wanted: Wanted,
    width: u8,
    function: u32,
    arguments: Vec<Term>,
) -> Result<Typed, CheckErr>
    ensures says { Says result (settle place (shown_wanted wanted) width (Loop function (shown_terms arguments.items))) }
    ensures slots { IfOk result (λ t. (n : ℕ) → AllByRecursion (HasSlots n) arguments.items → HasSlots n t.term) }
{
    settled(place, wanted, width, Term::Loop(function, arguments))
}

/// The slots of the bindings of a let.
pub fn own_slots(alloc: Global, bound: &[Bound], widths: &[u8]) -> Result<Vec<Slot>, NoMemory>
    ensures { IfOk result (λ own. shown_slots own.items ≡ slots (shown_bindings bound.now) widths.now) }
{
    let mut own = Vec::new(alloc);
    add_slots(alloc, &mut own, bound, widths)?;
    Ok(own)
}

// Appends a slot for each binding. It recurses, since lets have few bindings.
fn add_slots(
    alloc: Global,
    all: &mut Vec<Slot>,
    bound: &[Bound],
    widths: &[u8],
) -> Result<(), NoMemory>
    ensures { OnOk result (shown_slots all.new.items ≡ shown_slots all.old.items ++ slots (shown_bindings bound.now) widths.now) }
{
    let Some((first, rest)) = bound.split_first() else {
        return Ok(());
    };
    let Some((width, others)) = widths.split_first() else {
        return Ok(());
    };
    let name = Name::new(alloc, first.name.bytes())?;
    all.push(Slot {
        name,
        width: *width,
    })?;
    add_slots(alloc, all, rest, others)
}
