//! Lists of numbers, linked in one array.

use std::alloc::{AllocError, Global};
use std::marker::Model;

/// A number of a list, and the link after it. Links are numbered from 1; 0 is the end of the list.
#[derive(Clone, Copy)]
pub struct Link {
    pub number: u32,
    pub next: u32,
}

/// A list of numbers for each place. All links are in one array, so a list takes no memory of its own. Each number is
/// added at the front.
#[derive(Drop)]
pub struct Chains {
    heads: Vec<u32>,
    links: Vec<Link>,
}

impl Model for Chains {
    ghost use Rattle.std.specs.Prelude.{List, ℕ};
    ghost use Rattle.safl_sim.specs.Chains.{lists_of, AreChains};

    ghost Value = { List (List ℕ) };

    ghost view = { λ c. lists_of c.heads.items c.links.items };

    ghost invariant = { λ c. AreChains c.heads.items c.links.items };
}

impl Chains {
    ghost use Rattle.std.specs.Prelude.{◌≡◌, ◌++◌, ◌∷◌, [], ◌<◌, ℕ, List, length, slice_get, slice_set, Some, IfOk, OnOk};

    /// Empty lists for `count` places.
    pub fn new(alloc: Global, count: usize) -> Result<Chains, AllocError>
        ensures long { IfOk result (λ c. length c ≡ count) }
        ensures none { IfOk result (λ c. (p : ℕ) (v : List ℕ) → slice_get c p ≡ Some v → v ≡ []) }
    {
        let mut heads = Vec::with_capacity(alloc, count)?;
        'places: for _p in 0..count {
            heads.push(0)?;
        }
        Ok(Chains {
            heads,
            links: Vec::new(alloc),
        })
    }

    /// Adds a number at the front of a list. More links than 32 bits can number would not fit into memory.
    pub fn push(&mut self, place: usize, number: u32) -> Result<(), AllocError>
        requires { place < length self.old }
        ensures long { length self.new ≡ length self.old }
        ensures pushed { OnOk result ((v : List ℕ) → slice_get self.old place ≡ Some v → self.new ≡ slice_set self.old place (number ∷ v)) }
    {
        let count = self.links.len();
        if count >= 0xFFFF_FFFF {
            return Err(AllocError);
        }
        let next = self.heads[place];
        self.links.push(Link { number, next })?;
        self.heads[place] = count as u32 + 1;
        Ok(())
    }

    /// Appends the numbers of a list to `out`.
    pub fn append(&self, place: usize, out: &mut Vec<u32>) -> Result<(), AllocError>
        requires { place < length self.now }
        ensures { OnOk result ((v : List ℕ) → slice_get self.now place ≡ Some v → out.new.items ≡ out.old.items ++ v) }
    {
        let mut at = self.heads[place];
        'links: while at != 0 {
            let link = self.links[at as usize - 1];
            out.push(link.number)?;
            at = link.next;
        }
        Ok(())
    }
}
