//! What is noted on a walk over a body, for the marks and for the answer. Nothing is proved of it.

use crate::labels::{Labels, Parameter};
use safl_term::{Node, Term, top};
use safl_word::NoMemory;
use std::alloc::Global;
use std::mem::replace;

/// A parameter of a called function to which a body passes a word that is not public, and the parameter of the body's own
/// function that the word comes from.
#[derive(Clone, Copy)]
pub struct Leak {
    pub to: Parameter,
    pub from: Option<u32>,
}

/// An `if` of a body, and the parameter that its condition comes from.
#[derive(Clone, Copy)]
pub struct Blocked {
    pub branch: u32,
    pub from: Option<u32>,
}

#[derive(Drop)]
pub struct Notes {
    pub leaks: Vec<Leak>,
    pub blocked: Option<Blocked>,
    // for each slot, the parameter that a word in it comes from
    sources: Vec<Option<u32>>,
    // the parameter that the secret condition comes from between whose branches the walk is
    chooser: Option<u32>,
    // how many ifs the walk has come to
    branches: u32,
}

impl Notes {
    /// For a function with so many parameters.
    pub fn new(alloc: Global, params: u32) -> Result<Notes, NoMemory> {
        let mut sources = Vec::new(alloc);
        for i in 0..params {
            sources.push(Some(i))?;
        }
        Ok(Notes {
            leaks: Vec::new(alloc),
            blocked: None,
            sources,
            chooser: None,
            branches: 0,
        })
    }

    /// The number of the `if` that the walk comes to.
    pub fn branch(&mut self) -> u32 {
        let number = self.branches;
        self.branches = number.saturating_add(1);
        number
    }

    /// Notes that an `if` stands in the way, unless one before it in the text does.
    pub fn block(&mut self, slots: &[bool], branch: u32, condition: &Term) {
        let is_first = match self.blocked {
            Some(blocked) => branch < blocked.branch,
            None => true,
        };
        if is_first {
            let from = self.source(slots, condition);
            self.blocked = Some(Blocked { branch, from });
        }
    }

    /// Notes that a secret condition chooses, and gives the parameter that the one before came from.
    pub fn choose(&mut self, slots: &[bool], condition: &Term) -> Option<u32> {
        let source = self.source(slots, condition).or(self.chooser);
        replace(&mut self.chooser, source)
    }

    /// Notes that the one before chooses again.
    pub fn choose_again(&mut self, source: Option<u32>) {
        self.chooser = source;
    }

    /// Notes what is passed to the public parameters of a function and is not public.
    pub fn pass(
        &mut self,
        labels: &Labels,
        slots: &[bool],
        function: u32,
        args: &[Term],
        found: &[bool],
    ) -> Result<(), NoMemory> {
        let params = labels.of_params(function);
        let mut place = 0;
        for arg in args {
            if is_at(params, place, true) && is_at(found, place, false) {
                let from = self.source(slots, arg).or(self.chooser);
                let to = Parameter { function, place };
                self.leaks.push(Leak { to, from })?;
            }
            place = u32::saturating_add(place, 1);
        }
        Ok(())
    }

    /// Notes where the words of a let's slots come from.
    pub fn bind(&mut self, slots: &[bool], bound: &[Term]) -> Result<(), NoMemory> {
        self.sources.truncate(slots.len());
        for t in bound {
            let source = self.source(slots, t);
            self.sources.push(source)?;
        }
        Ok(())
    }

    // The parameter that the first word of a term that is not public comes from.
    #[cycle(source)]
    fn source(&self, slots: &[bool], t: &Term) -> Option<u32> {
        match top(t) {
            Node::Const(_) => None,
            Node::Var(i) => self.source_of_slot(slots, i),
            Node::If(condition, first, second) => self
                .source(slots, condition)
                .or(self.source(slots, first))
                .or(self.source(slots, second)),
            Node::Let(_, ts, body) => self.source_in(slots, ts).or(self.source(slots, body)),
            Node::Op(_, ts) => self.source_in(slots, ts),
            Node::Call(_, _, ts) => self.source_in(slots, ts),
            Node::Loop(_, ts) => self.source_in(slots, ts),
        }
    }

    #[cycle(source)]
    fn source_in(&self, slots: &[bool], ts: &[Term]) -> Option<u32> {
        match ts.split_first() {
            Some((first, rest)) => self.source(slots, first).or(self.source_in(slots, rest)),
            None => None,
        }
    }

    // Slots of lets inside the term come from what is bound to them.
    fn source_of_slot(&self, slots: &[bool], i: u32) -> Option<u32> {
        match slots.get(i as usize) {
            Some(false) => match self.sources.get(i as usize) {
                Some(source) => *source,
                None => None,
            },
            _ => None,
        }
    }
}

// Whether there is this label at a place.
fn is_at(labels: &[bool], place: u32, label: bool) -> bool {
    match labels.get(place as usize) {
        Some(found) => *found == label,
        None => false,
    }
}
