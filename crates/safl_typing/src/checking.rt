//! Checking an expression: its width and its term, or its first fault.

ghost use Rattle.std.specs.Prelude.{◌≡◌, ◌<◌, ◌^◌, ◌==◌, IfOk, length};
ghost use Rattle.std.specs.List.{AllByRecursion};
ghost use Rattle.safl_term.specs.Slots.{HasSlots};
ghost use Rattle.safl_term.specs.Tree.{shown_term};
ghost use Rattle.safl_word.specs.declared.fault.Rule.TheVariants as rules;
ghost use Rattle.safl_typing.specs.declared.typed.CheckErr.TheVariants as errors;
ghost use Rattle.safl_typing.specs.Rewriting.{Let, Op, Call, count};
ghost use Rattle.safl_typing.specs.Ranges.{WideSlots};
ghost use Rattle.safl_typing.specs.Walk.{fault_with, check, check_shift, check_bound};
ghost use Rattle.safl_typing.specs.Plain.{shown_expression, shown_expressions, shown_bindings};
ghost use Rattle.safl_typing.specs.PlainHeads.{shown_slots, shown_head};
ghost use Rattle.safl_typing.specs.PlainContext.{seen};
ghost use Rattle.safl_typing.specs.PlainScope.{shown_scope, HaveSlotsAfter};
ghost use Rattle.safl_typing.specs.PlainTyped.{shown_wanted, HasWideWanted, Says, SaysAll, SaysAlike};
ghost use Rattle.safl_typing.specs.Marks.{IsMarked, AreMarked, BoundMarked};
ghost use Rattle.safl_typing.specs.MayWalk.{MayWalkAll, MayBind};
ghost use Rattle.safl_typing.specs.Checking.{choice_between, MayCheckIn, MayCheckBoth, checked, checked_both, checked_alike, checked_all, checked_found, counted_arguments};

use crate::context::Context;
use crate::expression::{Bound, Expression};
use crate::heads::{Callee, Head, Slot, find_callee};
use crate::marks::{add_bound_sites, add_sites, are_both_flexible, is_flexible};
use crate::opened::{Opened, top};
use crate::repeats::find_repeated;
use crate::scope::{Scope, count};
use crate::shape::{Shape, shape_of};
use crate::terms::{
    TypedAlike, TypedAll, make_if, make_let, make_operation, none_alike, none_typed, own_slots,
    put_first, put_operand, settled_call, settled_loop, settled_operation,
};
use crate::typed::{
    CheckErr, Typed, Wanted, as_written, comes_later, has_width, refused, typed_number,
    typed_sized, typed_variable,
};
use crate::wanted::{wanted_arguments, wanted_operands};
use safl_term::Term;
use safl_tree::Name;
use safl_word::{Fault, Primitive, Rule, result_width};

// What is known of a part of a body before it is checked: the number of its first call site, whether it is in tail
// position, and which width is expected.
#[derive(Clone, Copy)]
struct Position {
    first_site: u32,
    tail: bool,
    wanted: Wanted,
}

// The two branches of an if.
#[derive(Clone, Copy)]
struct Branches<'a> {
    first: &'a Expression,
    second: &'a Expression,
}

/// The width and the term of an expression with these variables in scope, or its first fault. Its call sites are
/// numbered from `first_site` on. `tail` says whether it is in tail position, and `wanted` whether a width is expected,
/// and which.
#[cycle(walk)]
pub fn check_expression(
    context: &Context,
    scope: &Scope,
    tail: bool,
    first_site: u32,
    wanted: Wanted,
    e: &Expression,
) -> Result<Typed, CheckErr>
    requires able { MayCheckIn context.now scope.now first_site (shown_expression e.now) }
    requires marked { IsMarked (seen context.now) e.now }
    requires wanted { HasWideWanted wanted }
    ensures says { Says result (check (seen context.now) (shown_scope scope.now) tail first_site (shown_wanted wanted) (shown_expression e.now)) }
    ensures slots { IfOk result (λ t. HasSlots (length (shown_scope scope.now)) t.term) }
{
    let position = Position {
        first_site,
        tail,
        wanted,
    };
    match top(e) {
        Opened::Number(place, value) => typed_number(place, value, wanted),
        Opened::Sized(place, width, value) => typed_sized(place, width, value, wanted),
        Opened::Variable(place, name) => typed_variable(place, scope, name, wanted),
        Opened::If(place, _, condition, first, second) => check_choice(
            context,
            scope,
            position,
            place,
            condition,
            Branches { first, second },
        ),
        Opened::Let(place, _, bound, body) => {
            check_binding(context, scope, position, place, bound, body)
        }
        Opened::Op(place, _, operator, operands) => {
            check_applied(context, scope, position, place, operator, operands)
        }
        Opened::Call(place, _, name, arguments) => {
            check_called(context, scope, position, place, name, arguments)
        }
    }
}

// Checks an if. E14 if no width is expected and neither branch gives one.
#[cycle(walk)]
fn check_choice(
    context: &Context,
    scope: &Scope,
    position: Position,
    place: u32,
    condition: &Expression,
    both: Branches,
) -> Result<Typed, CheckErr>
    requires able { MayCheckIn context.now scope.now position.first_site (choice_between place condition.now both) }
    requires marked { IsMarked (seen context.now) condition.now × IsMarked (seen context.now) both.first.now × IsMarked (seen context.now) both.second.now }
    requires wanted { HasWideWanted position.wanted }
    ensures says { Says result (checked context.now scope.now position (choice_between place condition.now both.entry)) }
    ensures slots { IfOk result (λ t. HasSlots (length (shown_scope scope.now)) t.term) }
{
    let flexible = are_both_flexible(both.first, both.second);
    let known = has_width(position.wanted, flexible);
    if !known {
        return Err(refused(Rule::E14, place));
    }
    let next = add_sites(position.first_site, condition);
    let bit = Wanted::Exactly(1);
    let test = check_expression(context, scope, false, position.first_site, bit, condition)?;
    let after = Position {
        first_site: next,
        ..position
    };
    check_branches(context, scope, after, test.term, both)
}

// Checks the branches of an if. If no width is expected, the first rigid branch gives it.
#[cycle(walk)]
fn check_branches(
    context: &Context,
    scope: &Scope,
    position: Position,
    test: Term,
    both: Branches,
) -> Result<Typed, CheckErr>
    requires able { MayCheckBoth context.now scope.now position.first_site both }
    requires marked { IsMarked (seen context.now) both.first.now × IsMarked (seen context.now) both.second.now }
    requires slots { HasSlots (length (shown_scope scope.now)) test }
    requires wanted { HasWideWanted position.wanted }
    ensures says { Says result (checked_both context.now scope.now position both.entry (shown_term test)) }
    ensures slots { IfOk result (λ t. HasSlots (length (shown_scope scope.now)) t.term) }
{
    let Position {
        first_site,
        tail,
        wanted,
    } = position;
    let next = add_sites(first_site, both.first);
    let flexible = is_flexible(both.first);
    let later = comes_later(wanted, flexible);
    if later {
        let second = check_expression(context, scope, tail, next, wanted, both.second)?;
        let found = Wanted::Exactly(second.width);
        let first = check_expression(context, scope, tail, first_site, found, both.first)?;
        return make_if(context.alloc, second.width, test, first.term, second.term);
    }
    let first = check_expression(context, scope, tail, first_site, wanted, both.first)?;
    let found = Wanted::Exactly(first.width);
    let second = check_expression(context, scope, tail, next, found, both.second)?;
    make_if(context.alloc, first.width, test, first.term, second.term)
}

// Checks a let. E14 if no width is expected and its body gives none, E07 if it binds a name twice.
#[cycle(walk)]
fn check_binding(
    context: &Context,
    scope: &Scope,
    position: Position,
    place: u32,
    bound: &[Bound],
    body: &Expression,
) -> Result<Typed, CheckErr>
    requires able { MayCheckIn context.now scope.now position.first_site (Let place (shown_bindings bound.now) (shown_expression body.now)) }
    requires marked { BoundMarked (seen context.now) bound.now × IsMarked (seen context.now) body.now }
    requires wanted { HasWideWanted position.wanted }
    ensures says { Says result (checked context.now scope.now position (Let place (shown_bindings bound.now) (shown_expression body.now))) }
    ensures slots { IfOk result (λ t. HasSlots (length (shown_scope scope.now)) t.term) }
{
    let flexible = is_flexible(body);
    let known = has_width(position.wanted, flexible);
    if !known {
        return Err(refused(Rule::E14, place));
    }
    if let Some(twice) = find_repeated(bound) {
        return Err(refused(Rule::E07, twice));
    }
    let next = add_bound_sites(position.first_site, bound);
    let all = check_bound(context, scope, position.first_site, bound)?;
    let own = own_slots(context.alloc, bound, &all.widths)?;
    let below = Scope::Let(&*scope, &own);
    let typed = check_expression(context, &below, position.tail, next, position.wanted, body)?;
    make_let(
        context.alloc,
        typed.width,
        count(scope),
        all.terms,
        typed.term,
    )
}

// Checks bindings in order, each against its written width if it has one.
#[cycle(walk)]
fn check_bound(
    context: &Context,
    scope: &Scope,
    first_site: u32,
    bound: &[Bound],
) -> Result<TypedAll, CheckErr>
    requires able { MayBind context.now.heads.now context.now.unit (shown_scope scope.now) first_site (shown_bindings bound.now) }
    requires marked { BoundMarked (seen context.now) bound.now }
    ensures says { SaysAll result (check_bound (seen context.now) (shown_scope scope.now) first_site (shown_bindings bound.now)) }
    ensures slots { IfOk result (λ t. HaveSlotsAfter scope.now t.terms.items) }
{
    let Some((first, rest)) = bound.split_first() else {
        return Ok(none_typed(context.alloc));
    };
    let next = add_sites(first_site, &first.value);
    let wanted = as_written(first.width);
    let value = check_expression(context, scope, false, first_site, wanted, &first.value)?;
    let others = check_bound(context, scope, next, rest)?;
    put_first(value, others)
}

// Checks an operator and its operands, by what the operator requires of widths.
#[cycle(walk)]
fn check_applied(
    context: &Context,
    scope: &Scope,
    position: Position,
    place: u32,
    operator: Primitive,
    operands: &[Expression],
) -> Result<Typed, CheckErr>
    requires able { MayCheckIn context.now scope.now position.first_site (Op place operator (shown_expressions operands.now)) }
    requires marked { AreMarked (seen context.now) operands.now }
    requires wanted { HasWideWanted position.wanted }
    ensures says { Says result (checked context.now scope.now position (Op place operator (shown_expressions operands.now))) }
    ensures slots { IfOk result (λ t. HasSlots (length (shown_scope scope.now)) t.term) }
{
    match shape_of(operator) {
        Shape::Alike => {
            let typed = check_alike(
                context,
                scope,
                position.first_site,
                place,
                position.wanted,
                operands,
            )?;
            Ok(make_operation(typed.width, operator, typed.terms))
        }
        Shape::Comparing => {
            let any = Wanted::Any;
            let typed = check_alike(context, scope, position.first_site, place, any, operands)?;
            settled_operation(place, position.wanted, 1, operator, typed.terms)
        }
        Shape::Shifting => {
            let typed = check_shift(context, scope, position.first_site, place, operands)?;
            settled_operation(place, position.wanted, typed.width, operator, typed.terms)
        }
        Shape::Resizing => {
            let typed = check_found(context, scope, position.first_site, operands)?;
            match result_width(operator, &typed.widths) {
                Some(width) => settled_operation(
                    place,
                    position.wanted,
                    width,
                    operator,
                    typed.terms,
                ),
                None => Err(refused(Rule::E05, place)),
            }
        }
    }
}

// Checks operands of one width. If no width is expected, the first rigid operand gives it, and is checked first.
#[cycle(walk)]
fn check_alike(
    context: &Context,
    scope: &Scope,
    first_site: u32,
    place: u32,
    wanted: Wanted,
    operands: &[Expression],
) -> Result<TypedAlike, CheckErr>
    requires able { MayWalkAll context.now scope.now first_site operands.now }
    requires marked { AreMarked (seen context.now) operands.now }
    requires wanted { HasWideWanted wanted }
    ensures says { SaysAlike result (checked_alike context.now scope.now first_site place wanted operands.now) }
    ensures slots { IfOk result (λ t. HaveSlotsAfter scope.now t.terms.items) }
{
    let Some((first, rest)) = operands.split_first() else {
        return none_alike(context.alloc, place, wanted);
    };
    let next = add_sites(first_site, first);
    let flexible = is_flexible(first);
    let later = comes_later(wanted, flexible);
    if later {
        let others = check_alike(context, scope, next, place, wanted, rest)?;
        let found = Wanted::Exactly(others.width);
        let operand = check_expression(context, scope, false, first_site, found, first)?;
        return put_operand(others.width, operand.term, others.terms);
    }
    let operand = check_expression(context, scope, false, first_site, wanted, first)?;
    let found = Wanted::Exactly(operand.width);
    let others = check_alike(context, scope, next, place, found, rest)?;
    put_operand(operand.width, operand.term, others.terms)
}

// Checks the operands of a shift: first the one that is shifted, whose width has to be found, then the amount.
#[cycle(walk)]
fn check_shift(
    context: &Context,
    scope: &Scope,
    first_site: u32,
    place: u32,
    operands: &[Expression],
) -> Result<TypedAlike, CheckErr>
    requires able { MayWalkAll context.now scope.now first_site operands.now }
    requires marked { AreMarked (seen context.now) operands.now }
    ensures says { SaysAlike result (check_shift (seen context.now) (shown_scope scope.now) first_site place (shown_expressions operands.now)) }
    ensures slots { IfOk result (λ t. HaveSlotsAfter scope.now t.terms.items) }
{
    let Some((first, rest)) = operands.split_first() else {
        return Err(refused(Rule::E14, place));
    };
    let next = add_sites(first_site, first);
    let any = Wanted::Any;
    let operand = check_expression(context, scope, false, first_site, any, first)?;
    let amounts = wanted_operands(context.alloc, Some(operand.width), rest)?;
    let others = check_all(context, scope, next, &amounts, rest)?;
    put_operand(operand.width, operand.term, others.terms)
}

// Checks operands whose widths all have to be found.
#[cycle(walk)]
fn check_found(
    context: &Context,
    scope: &Scope,
    first_site: u32,
    operands: &[Expression],
) -> Result<TypedAll, CheckErr>
    requires able { MayWalkAll context.now scope.now first_site operands.now }
    requires marked { AreMarked (seen context.now) operands.now }
    ensures says { SaysAll result (checked_found context.now scope.now first_site operands.now) }
    ensures slots { IfOk result (λ t. HaveSlotsAfter scope.now t.terms.items) }
{
    let wanted = wanted_operands(context.alloc, None, operands)?;
    check_all(context, scope, first_site, &wanted, operands)
}

// Checks expressions in order, each as it is wanted.
#[cycle(walk)]
fn check_all(
    context: &Context,
    scope: &Scope,
    first_site: u32,
    wanted: &[Wanted],
    expressions: &[Expression],
) -> Result<TypedAll, CheckErr>
    requires able { MayWalkAll context.now scope.now first_site expressions.now }
    requires marked { AreMarked (seen context.now) expressions.now }
    requires wanted { AllByRecursion HasWideWanted wanted.now }
    ensures says { SaysAll result (checked_all context.now scope.now first_site wanted.now expressions.now) }
    ensures slots { IfOk result (λ t. HaveSlotsAfter scope.now t.terms.items) }
{
    let Some((first, rest)) = expressions.split_first() else {
        return Ok(none_typed(context.alloc));
    };
    let Some((own, others)) = wanted.split_first() else {
        return Ok(none_typed(context.alloc));
    };
    let next = add_sites(first_site, first);
    let typed = check_expression(context, scope, false, first_site, *own, first)?;
    let following = check_all(context, scope, next, others, rest)?;
    put_first(typed, following)
}

// Checks a call. A function of the same group may be called only in tail position, and one of an earlier group anywhere.
#[cycle(walk)]
fn check_called(
    context: &Context,
    scope: &Scope,
    position: Position,
    place: u32,
    name: &Name,
    arguments: &[Expression],
) -> Result<Typed, CheckErr>
    requires able { MayCheckIn context.now scope.now position.first_site (Call place name.now (shown_expressions arguments.now)) }
    requires marked { AreMarked (seen context.now) arguments.now }
    requires wanted { HasWideWanted position.wanted }
    ensures says { Says result (checked context.now scope.now position (Call place name.now (shown_expressions arguments.now))) }
    ensures slots { IfOk result (λ t. HasSlots (length (shown_scope scope.now)) t.term) }
{
    let Position {
        first_site,
        tail,
        wanted,
    } = position;
    match find_callee(context.heads, context.unit, name) {
        Callee::Member(n) => {
            if !tail {
                return Err(refused(Rule::E10, place));
            }
            let head = context.heads.get(n);
            let all = check_counted(context, scope, first_site, place, head, arguments)?;
            settled_loop(place, wanted, head.width, n as u32, all.terms)
        }
        Callee::Above(n) => {
            let head = context.heads.get(n);
            let next = first_site + 1;
            let all = check_counted(context, scope, next, place, head, arguments)?;
            settled_call(place, wanted, head.width, n as u32, first_site, all.terms)
        }
        Callee::Unknown => Err(refused(Rule::E09, place)),
    }
}

// Checks the arguments of a call. E11 if there are not as many as the function has parameters.
#[cycle(walk)]
fn check_counted(
    context: &Context,
    scope: &Scope,
    first_site: u32,
    place: u32,
    head: &Head,
    arguments: &[Expression],
) -> Result<TypedAll, CheckErr>
    requires able { MayWalkAll context.now scope.now first_site arguments.now }
    requires marked { AreMarked (seen context.now) arguments.now }
    requires wide { WideSlots (shown_head head.now).params }
    requires counted { length head.now.params.items < 2 ^ 32 }
    ensures says { SaysAll result (counted_arguments context.now scope.now first_site place head.now arguments.now) }
    ensures slots { IfOk result (λ t. HaveSlotsAfter scope.now t.terms.items) }
{
    let same = are_as_many(&head.params, arguments);
    if !same {
        return Err(wrong_count(place, &head.params, arguments));
    }
    let wanted = wanted_arguments(context.alloc, &head.params)?;
    check_all(context, scope, first_site, &wanted, arguments)
}

// Whether there are as many arguments as parameters.
fn are_as_many(params: &[Slot], arguments: &[Expression]) -> bool
    ensures { result ≡ (length (shown_slots params.now) == count (shown_expressions arguments.now)) }
{
    params.len() == arguments.len()
}

// E11, with the number of parameters and the number of arguments.
fn wrong_count(place: u32, params: &[Slot], arguments: &[Expression]) -> CheckErr
    requires params { length params.now < 2 ^ 32 }
    requires arguments { length arguments.now < 2 ^ 32 }
    ensures { result ≡ errors.Refused (fault_with rules.E11 place (length (shown_slots params.now)) (count (shown_expressions arguments.now))) }
{
    CheckErr::Refused(Fault::with(
        Rule::E11,
        place,
        params.len() as u32,
        arguments.len() as u32,
    ))
}
