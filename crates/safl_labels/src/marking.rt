//! Marking what cannot be public, until nothing is left to mark.
//!
//! Nothing is proved of the marks: whether they are labels of the program is tested at the end.

ghost use Rattle.std.specs.Prelude.{◌<◌};

use crate::keeping::compare_body;
use crate::labels::{Labels, Obstacle, Parameter};
use crate::likeness::Likeness;
use crate::notes::{Blocked, Leak, Notes};
use safl_term::Checked;
use safl_word::NoMemory;
use std::alloc::Global;

// A parameter that is not public, and the one from which the word comes that is passed to it.
#[derive(Clone, Copy)]
pub struct Mark {
    to: Parameter,
    from: Option<Parameter>,
}

#[derive(Drop)]
pub struct Marking {
    pub labels: Labels,
    pub marks: Vec<Mark>,
}

impl Marking {
    /// The marks that follow from those on the parameters of main.
    pub fn new(alloc: Global, c: &Checked, secret: &[bool]) -> Result<Marking, NoMemory> {
        let labels = first_labels(alloc, c, secret)?;
        let mut marking = Marking {
            labels,
            marks: Vec::new(alloc),
        };
        for _ in 0..=count_labels(c) {
            if !marking.pass(alloc, c)? {
                break;
            }
        }
        Ok(marking)
    }

    // Marks what the bodies show, from main's back. True if something was marked.
    fn pass(&mut self, alloc: Global, c: &Checked) -> Result<bool, NoMemory> {
        let mut is_changed = false;
        for f in (0..c.functions()).rev() {
            if self.mark_body(alloc, c, f)? {
                is_changed = true;
            }
        }
        Ok(is_changed)
    }

    fn mark_body(&mut self, alloc: Global, c: &Checked, f: u32) -> Result<bool, NoMemory>
        requires { f < c.now.program.functions }
    {
        let mut notes = Notes::new(alloc, c.params(f))?;
        let found = compare_body(alloc, c, &self.labels, f, &mut notes)?;
        let mut is_changed = false;
        for leak in &notes.leaks {
            if self.mark(f, *leak)? {
                is_changed = true;
            }
        }
        if found == Likeness::SameTime && self.labels.of_result(f) {
            self.labels.hide_results(c, c.unit(f));
            is_changed = true;
        }
        Ok(is_changed)
    }

    // Marks the parameter to which something leaks in the body of `f`. True if it was public.
    fn mark(&mut self, f: u32, leak: Leak) -> Result<bool, NoMemory> {
        if !self.labels.hide(leak.to) {
            return Ok(false);
        }
        let from = parameter_of(f, leak.from);
        self.marks.push(Mark { to: leak.to, from })?;
        Ok(true)
    }

    /// The first condition that stands in the way.
    pub fn obstacle(&self, alloc: Global, c: &Checked) -> Result<Obstacle, NoMemory> {
        for f in 0..c.functions() {
            let mut notes = Notes::new(alloc, c.params(f))?;
            let _found = compare_body(alloc, c, &self.labels, f, &mut notes)?;
            if let Some(blocked) = notes.blocked {
                return self.obstacle_at(alloc, f, blocked);
            }
        }
        Ok(Obstacle {
            function: c.main(),
            branch: 0,
            chain: Vec::new(alloc),
        })
    }

    fn obstacle_at(&self, alloc: Global, f: u32, blocked: Blocked) -> Result<Obstacle, NoMemory> {
        let mut chain = Vec::new(alloc);
        let mut next = parameter_of(f, blocked.from);
        for _ in 0..=self.marks.len() {
            let Some(parameter) = next else {
                break;
            };
            chain.push(parameter)?;
            next = self.source(parameter);
        }
        chain.reverse();
        Ok(Obstacle {
            function: f,
            branch: blocked.branch,
            chain,
        })
    }

    // The parameter from which the word comes that is passed to a marked one.
    fn source(&self, parameter: Parameter) -> Option<Parameter> {
        for mark in &self.marks {
            if mark.to == parameter {
                return mark.from;
            }
        }
        None
    }
}

fn parameter_of(function: u32, place: Option<u32>) -> Option<Parameter> {
    match place {
        Some(place) => Some(Parameter { function, place }),
        None => None,
    }
}

// How many labels there are, or more.
fn count_labels(c: &Checked) -> u32 {
    c.functions() * 17
}

// All is public but the secret parameters of main.
fn first_labels(alloc: Global, c: &Checked, secret: &[bool]) -> Result<Labels, NoMemory> {
    let mut params = Vec::new(alloc);
    let mut results = Vec::new(alloc);
    for f in 0..c.functions() {
        if f == c.main() {
            params.push(negated(alloc, secret)?)?;
        } else {
            params.push(all_public(alloc, c.params(f))?)?;
        }
        results.push(true)?;
    }
    Ok(Labels { params, results })
}

fn negated(alloc: Global, secret: &[bool]) -> Result<Vec<bool>, NoMemory> {
    let mut public = Vec::new(alloc);
    for label in secret {
        public.push(!*label)?;
    }
    Ok(public)
}

fn all_public(alloc: Global, count: u32) -> Result<Vec<bool>, NoMemory> {
    let mut public = Vec::new(alloc);
    for _ in 0..count {
        public.push(true)?;
    }
    Ok(public)
}
