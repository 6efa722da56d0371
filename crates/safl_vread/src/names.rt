//! Lists of different names, and the rule that no name is listed or declared twice.

ghost use Rattle.std.specs.Prelude.{◌≡◌, [], IfOk};
ghost use Rattle.safl_verilog.specs.Faults.{repeat_faults};
ghost use Rattle.safl_verilog.specs.FaultParts.{declared_names};
ghost use Rattle.safl_vparse.specs.Shown.{shown_spots, shown_declarations};
ghost use Rattle.safl_vread.specs.Firsts.{Answers};
ghost use Rattle.safl_vread.specs.Lists.{bytes_of_all};

use crate::spans::{bytes_of, fault_at};
use indexmap::IndexSet;
use safl_verilog::VRule;
use safl_vparse::{Declaration, Span, VErr};
use std::alloc::{AllocError, Global};
use std::marker::Model;

/// A list of different names, in order.
#[derive(Drop)]
pub struct Names<'t> {
    set: IndexSet<&'t [u8]>,
}

impl<'t> Model for Names<'t> {
    ghost use Rattle.std.specs.Prelude.{ℕ, List};
    ghost use Rattle.safl_vread.specs.Lists.{shown_keys};

    ghost Value = { List (List ℕ) };

    ghost view = { λ a. shown_keys a.set.keys };
}

impl<'t> Names<'t> {
    ghost use Rattle.std.specs.Prelude.{◌≡◌, ◌<◌, [], not, length, position, IfOk, IfSome};
    ghost use Rattle.std.specs.Str.{bytes_eq};
    ghost use Rattle.safl_vread.specs.Lists.{has, with_new};

    fn new(alloc: Global) -> Names<'t>
        ensures { result ≡ [] }
    {
        Names {
            set: IndexSet::new(alloc),
        }
    }

    // Appends a name if it is new, and says whether it is.
    fn add(&mut self, name: &'t [u8]) -> Result<bool, AllocError>
        ensures new { IfOk result (λ new. new ≡ not (has self.old name.now)) }
        ensures names { IfOk result (λ new. self.new ≡ with_new self.old name.now new) }
    {
        let added = self.set.insert(name)?;
        Ok(added)
    }

    /// The place of a name in the list, if it is there.
    pub fn place(&self, name: &[u8]) -> Option<usize>
        ensures place { result ≡ position (bytes_eq name.now) self.now }
        ensures within { IfSome result (λ i. i < length self.now) }
    {
        self.set.get_index_of(name)
    }

    /// Whether a name is in the list.
    pub fn has(&self, name: &[u8]) -> bool
        ensures { result ≡ has self.now name.now }
    {
        self.set.contains(name)
    }
}

/// The names of the header. V03 at the first that is there twice.
pub fn header_names<'t>(alloc: Global, text: &'t [u8], header: &[Span]) -> Result<Names<'t>, VErr>
    ensures faults { Answers (repeat_faults [] (shown_spots text.now header.now)) result }
    ensures names { IfOk result (λ names. names ≡ bytes_of_all (shown_spots text.now header.now)) }
{
    let mut names = Names::new(alloc);
    for x in header {
        if !names.add(bytes_of(text, *x))? {
            return Err(VErr::Refused(fault_at(VRule::V03, x.start)));
        }
    }
    Ok(names)
}

/// The declared names. V03 at the first that is declared twice.
pub fn declared_names<'t>(
    alloc: Global,
    text: &'t [u8],
    declarations: &[Declaration],
) -> Result<Names<'t>, VErr>
    ensures faults { Answers (repeat_faults [] (declared_names (shown_declarations text.now declarations.now))) result }
    ensures names { IfOk result (λ names. names ≡ bytes_of_all (declared_names (shown_declarations text.now declarations.now))) }
{
    let mut names = Names::new(alloc);
    for d in declarations {
        if !names.add(bytes_of(text, d.name))? {
            return Err(VErr::Refused(fault_at(VRule::V03, d.name.start)));
        }
    }
    Ok(names)
}
