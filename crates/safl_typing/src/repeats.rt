//! Names that are bound twice in one let.

ghost use Rattle.std.specs.Prelude.{◌≡◌, ◌≤◌, [], length};
ghost use Rattle.std.specs.List.{list_any};
ghost use Rattle.std.specs.Str.{bytes_eq};
ghost use Rattle.safl_typing.specs.Walk.{repeated};
ghost use Rattle.safl_typing.specs.Rewriting.{placed};
ghost use Rattle.safl_typing.specs.Plain.{shown_bindings};
ghost use Rattle.safl_typing.specs.PlainNames.{earlier, twice_at};

use crate::expression::Bound;
use safl_tree::Name;

/// The place of the first binding whose name was bound earlier in the same let.
pub fn find_repeated(bound: &[Bound]) -> Option<u32>
    ensures { twice_at result ≡ repeated [] (placed (shown_bindings bound.now)) }
{
    for i in 0..bound.len() {
        let name = &bound[i].name;
        if is_among(bound, i, name) {
            return Some(bound[i].place);
        }
    }
    None
}

// Whether one of the first `count` bindings has this name.
fn is_among(bound: &[Bound], count: usize, name: &Name) -> bool
    requires { count ≤ length bound.now }
    ensures { result ≡ list_any (bytes_eq name.now) (earlier bound.now count) }
{
    let mut found = false;
    for j in 0..count {
        if name.bytes() == bound[j].name.bytes() {
            found = true;
        }
    }
    found
}
