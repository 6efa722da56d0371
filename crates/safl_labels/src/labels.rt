//! Labels of a program, and what stands in their way.

ghost use Rattle.std.specs.Prelude.{◌≡◌};
ghost use Rattle.safl_labels.specs.Shown.{shown_labels, first_label};

use safl_term::Checked;
use std::mem::replace;

/// For each function, which of its parameters are public, and whether its result is.
#[derive(Drop)]
pub struct Labels {
    pub params: Vec<Vec<bool>>,
    pub results: Vec<bool>,
}

impl Labels {
    /// Which parameters of a function are public.
    pub fn of_params(&self, f: u32) -> &[bool]
        ensures { result.now ≡ (shown_labels self.now).params f }
    {
        match self.params.get(f as usize) {
            Some(labels) => labels.as_slice(),
            None => &[],
        }
    }

    /// Whether the result of a function is public.
    pub fn of_result(&self, f: u32) -> bool
        ensures { result ≡ (shown_labels self.now).result f }
    {
        match self.results.get(f as usize) {
            Some(label) => *label,
            None => self.of_first(),
        }
    }

    /// Makes a parameter secret. True if it was public.
    pub fn hide(&mut self, parameter: Parameter) -> bool {
        let Some(labels) = self.params.get_mut(parameter.function as usize) else {
            return false;
        };
        match labels.get_mut(parameter.place as usize) {
            Some(label) => replace(label, false),
            None => false,
        }
    }

    /// Makes the results of a group secret.
    pub fn hide_results(&mut self, c: &Checked, unit: u32) {
        for f in 0..c.functions() {
            if c.unit(f) == unit {
                self.hide_result(f);
            }
        }
    }

    fn hide_result(&mut self, f: u32) {
        if let Some(label) = self.results.get_mut(f as usize) {
            *label = false;
        }
    }

    // The label of the first function's result.
    fn of_first(&self) -> bool
        ensures { result ≡ first_label self.now.results.items }
    {
        match self.results.first() {
            Some(label) => *label,
            None => true,
        }
    }
}

/// A parameter: the number of its function, and its own place there.
#[derive(Clone, Copy, Debug, PartialEq, Eq)]
pub struct Parameter {
    pub function: u32,
    pub place: u32,
}

/// A condition that depends on a secret and selects between branches that differ in time: the number of the function, and
/// that of the `if` among those of its body in the order of the text, from 0. The chain has the parameters that carried
/// the secret there, from main's on.
#[derive(Drop)]
pub struct Obstacle {
    pub function: u32,
    pub branch: u32,
    pub chain: Vec<Parameter>,
}

/// What is found for some secret parameters of main.
#[derive(Drop)]
pub enum Finding {
    /// Labels under which no secret decides about time.
    Blind(Labels),
    /// What stands in the way of all that were tried.
    Depends(Obstacle),
}
