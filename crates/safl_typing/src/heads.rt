//! The heads of a program's functions, and which function a call names.

ghost use Rattle.std.specs.Prelude.{◌≡◌, ◌<◌, IfSome, ◌==◌, ◌&&◌, nat_lt, length};
ghost use Rattle.std.specs.Str.{bytes_eq};
ghost use Rattle.safl_typing.specs.Heads.{first_head, callee};
ghost use Rattle.safl_typing.specs.PlainHeads.{shown_heads, shown_callee, numbered, known, IsOneOf};

use indexmap::IndexMap;
use safl_tree::Name;
use safl_word::NoMemory;
use std::alloc::Global;
use std::marker::Model;

/// The name of a parameter or a binding, and its width in bits.
#[derive(Drop)]
pub struct Slot {
    pub name: Name,
    pub width: u8,
}

/// The head of a function: its name, its parameters, the width of its result in bits, and the number of the first
/// function of its group.
#[derive(Drop)]
pub struct Head {
    pub name: Name,
    pub params: Vec<Slot>,
    pub width: u8,
    pub unit: u32,
}

/// The heads of a program's functions in order, which can be found by name.
#[derive(Drop)]
pub struct Heads {
    list: Vec<Head>,
    last: IndexMap<Vec<u8>, usize>,
    before: Vec<Option<usize>>,
}

impl Model for Heads {
    ghost use Rattle.std.specs.Prelude.{List, length};
    ghost use Rattle.safl_typing.specs.declared.heads.Head.{Head};
    ghost use Rattle.safl_typing.specs.Named.{KeepsNames};

    ghost Value = { List Head };

    ghost view = { λ a. a.list.items };

    ghost invariant = { λ a. KeepsNames a.last.entries a.before.items a.list.items (length a.list.items) };
}

impl Heads {
    ghost use Rattle.std.specs.Prelude.{◌≡◌, ◌<◌, Some, length, slice_get, IfOk};
    ghost use Rattle.safl_typing.specs.Named.{last_named, before_it};

    /// The heads in this list, in its order.
    pub fn new(alloc: Global, list: Vec<Head>) -> Result<Heads, NoMemory>
        ensures { IfOk result (λ heads. heads ≡ list.items) }
    {
        let mut last = IndexMap::new(alloc);
        let mut before = Vec::new(alloc);
        for number in 0..list.len() {
            let name = Vec::from_slice(alloc, list[number].name.bytes())?;
            before.push(last.insert(name, number)?)?;
        }
        Ok(Heads { list, last, before })
    }

    /// The head of function `number`.
    pub fn get(&self, number: usize) -> &Head
        requires { number < length self.now }
        ensures { slice_get self.now number ≡ Some result.now }
    {
        &self.list[number]
    }

    // The last function with this name.
    fn last(&self, name: &Name) -> Option<usize>
        ensures { result ≡ last_named self.now name.now (length self.now) }
    {
        self.last.get(name.bytes()).copied()
    }

    /// The last function before this one that has its name.
    pub fn before(&self, number: usize) -> Option<usize>
        requires { number < length self.now }
        ensures { result ≡ before_it self.now number }
    {
        self.before[number]
    }
}

/// The function that a call names, by its number: one of the caller's own group, or one of an earlier group.
#[derive(Clone, Copy)]
pub enum Callee {
    Member(usize),
    Above(usize),
    Unknown,
}

/// The function that a call with this name means, in a body of group `unit`.
pub fn find_callee(heads: &Heads, unit: u32, name: &Name) -> Callee
    ensures one { IsOneOf heads.now result }
    ensures found { shown_callee heads.now result ≡ callee (known heads.now unit) name.now }
{
    if let Some(member) = find_member(heads, unit, name) {
        return Callee::Member(member);
    }
    if let Some(above) = find_above(heads, unit, name) {
        return Callee::Above(above);
    }
    Callee::Unknown
}

// The first function of group `unit` with this name.
fn find_member(heads: &Heads, unit: u32, name: &Name) -> Option<usize>
    ensures within { IfSome result (λ n. n < length heads.now) }
    ensures found { numbered heads.now result ≡ first_head (λ h. h.unit == unit && bytes_eq h.name name.now) 0 (shown_heads heads.now) }
{
    let mut found = None;
    let mut at = heads.last(name);
    while let Some(number) = at {
        if heads.get(number).unit == unit {
            found = Some(number);
        }
        at = heads.before(number);
    }
    found
}

// The first function with this name in a group before `unit`.
fn find_above(heads: &Heads, unit: u32, name: &Name) -> Option<usize>
    ensures within { IfSome result (λ n. n < length heads.now) }
    ensures found { numbered heads.now result ≡ first_head (λ h. nat_lt h.unit unit && bytes_eq h.name name.now) 0 (shown_heads heads.now) }
{
    let mut found = None;
    let mut at = heads.last(name);
    while let Some(number) = at {
        if heads.get(number).unit < unit {
            found = Some(number);
        }
        at = heads.before(number);
    }
    found
}
