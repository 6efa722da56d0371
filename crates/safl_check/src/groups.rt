//! The heads of groups: functions defined twice, results of different widths, and repeated parameters.

ghost use Rattle.std.specs.Prelude.{◌≡◌, ◌<◌, [], length, slice_get, IfSome};
ghost use Rattle.std.specs.List.{list_any};
ghost use Rattle.std.specs.Str.{bytes_eq};
ghost use Rattle.safl_tree.specs.Shown.{shown_definition, shown_definitions};
ghost use Rattle.safl_typing.specs.Heads.{heads};
ghost use Rattle.safl_typing.specs.PlainHeads.{shown_heads};
ghost use Rattle.safl_typing.specs.Walk.{fault_with, repeated, placed_params, head_fault};
ghost use Rattle.safl_check.specs.Groups.{earlier, group_fault_at};

use safl_tree::{Def, Name, Param};
use safl_typing::heads::Heads;
use safl_word::{Fault, Rule};

/// The first fault of the heads of the group that begins at definition `number`, member by member: E06 (function
/// defined twice), E12 (width differs from the group's) and E07 (parameter named twice). None if the definition
/// continues a group.
pub fn find_group_fault(defs: &[Def], all_heads: &Heads, number: usize) -> Option<Fault>
    requires number { number < length defs.now }
    requires heads { shown_heads all_heads.now ≡ heads (shown_definitions defs.now) }
    ensures { result ≡ group_fault_at (shown_definitions defs.now) number }
{
    let first = &defs[number];
    if first.joined {
        return None;
    }
    if let Some(fault) = find_head_fault(defs, all_heads, number, first.width) {
        return Some(fault);
    }
    for member in number + 1..defs.len() {
        let def = &defs[member];
        if !def.joined {
            return None;
        }
        if let Some(fault) = find_head_fault(defs, all_heads, member, first.width) {
            return Some(fault);
        }
    }
    None
}

// The first fault of the head of definition `number`, whose group has results of width `width`.
fn find_head_fault(defs: &[Def], all_heads: &Heads, number: usize, width: u8) -> Option<Fault>
    requires number { number < length defs.now }
    requires heads { shown_heads all_heads.now ≡ heads (shown_definitions defs.now) }
    ensures { IfSome (slice_get defs.now number) (λ d. result ≡ head_fault (earlier (shown_definitions defs.now) number) width (shown_definition d)) }
{
    let def = &defs[number];
    let namesake = all_heads.before(number);
    if namesake.is_some() {
        return Some(fault_at(Rule::E06, def.place, 0, 0));
    }
    if def.width != width {
        let found = u32::from(def.width);
        return Some(fault_at(Rule::E12, def.place, u32::from(width), found));
    }
    find_repeated_param(def)
}

// E07 at the first parameter whose name stands earlier in the list, if there is one.
fn find_repeated_param(def: &Def) -> Option<Fault>
    ensures { result ≡ repeated [] (placed_params (shown_definition def.now)) }
{
    let params = def.params.as_slice();
    for i in 0..params.len() {
        let param = &params[i];
        if is_named(&params[..i], &param.name) {
            return Some(fault_at(Rule::E07, param.place, 0, 0));
        }
    }
    None
}

// Whether one of these parameters has this name.
fn is_named(before: &[Param], name: &Name) -> bool
    ensures { result ≡ list_any (λ p. bytes_eq name.now p.name) before.now }
{
    before
        .iter()
        .any(|param| name.bytes() == param.name.bytes())
}

fn fault_at(rule: Rule, place: u32, wanted: u32, found: u32) -> Fault
    ensures { result ≡ fault_with rule place wanted found }
{
    Fault::with(rule, place, wanted, found)
}
