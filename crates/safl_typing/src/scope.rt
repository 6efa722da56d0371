//! Scopes: the variables that an expression sees.

ghost use Rattle.std.specs.Prelude.{◌≡◌, ◌+◌, ◌<◌, ◌^◌, Some, IfSome, length};
ghost use Rattle.safl_typing.specs.Typing.{innermost};
ghost use Rattle.safl_typing.specs.PlainHeads.{shown_slots};
ghost use Rattle.safl_typing.specs.PlainScope.{shown_scope, found_at, shifted};
ghost use Rattle.safl_typing.specs.PlainTyped.{at_slot};

use crate::heads::Slot;
use safl_tree::Name;

/// The variables that an expression sees: the parameters of its function, or the bindings of a let added to an outer
/// scope. They are numbered from 0, the parameters first.
#[derive(Clone, Copy)]
pub enum Scope<'a> {
    Params(&'a [Slot]),
    Let(&'a Scope<'a>, &'a [Slot]),
}

/// A variable's number, and its width in bits.
#[derive(Clone, Copy)]
pub struct Variable {
    pub slot: u32,
    pub width: u8,
}

/// The number of variables in a scope.
pub fn count(scope: &Scope) -> u32
    requires { length (shown_scope scope.now) < 2 ^ 32 }
    ensures { result ≡ length (shown_scope scope.now) }
{
    match scope {
        Scope::Params(slots) => slots.len() as u32,
        Scope::Let(around, slots) => count(around) + slots.len() as u32,
    }
}

/// The innermost variable with this name.
pub fn find_variable(scope: &Scope, name: &Name) -> Option<Variable>
    requires { length (shown_scope scope.now) < 2 ^ 32 }
    ensures { found_at result ≡ innermost name.now 0 (shown_scope scope.now) }
{
    match scope {
        Scope::Params(slots) => {
            let slot = find_slot(slots, name)?;
            Some(variable_at(0, slots, slot))
        }
        Scope::Let(around, slots) => {
            if let Some(slot) = find_slot(slots, name) {
                return Some(variable_at(count(around), slots, slot));
            }
            find_variable(around, name)
        }
    }
}

// The variable of a slot, if `before` variables come before these slots.
fn variable_at(before: u32, slots: &[Slot], slot: usize) -> Variable
    requires room { before + length slots.now < 2 ^ 32 }
    requires within { slot < length slots.now }
    ensures { shifted before (at_slot slots.now (Some slot)) ≡ found_at (Some result) }
{
    Variable {
        slot: before + slot as u32,
        width: slots[slot].width,
    }
}

// The last of these slots with this name.
fn find_slot(slots: &[Slot], name: &Name) -> Option<usize>
    ensures within { IfSome result (λ i. i < length slots.now) }
    ensures found { at_slot slots.now result ≡ innermost name.now 0 (shown_slots slots.now) }
{
    let mut found = None;
    for slot in 0..slots.len() {
        if slots[slot].name.bytes() == name.bytes() {
            found = Some(slot);
        }
    }
    found
}
