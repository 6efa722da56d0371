//! How many cases agree, and what differs.

use crate::calls::Ended;
use safl_word::NoMemory;
use std::alloc::Global;

/// How many cases were tried and how many differ, with a line for each that differs.
#[derive(Drop)]
pub struct Tally {
    alloc: Global,
    pub tried: usize,
    pub differing: usize,
    pub report: String,
}

impl Tally {
    pub fn new(alloc: Global) -> Self {
        Tally {
            alloc,
            tried: 0,
            differing: 0,
            report: String::new(alloc),
        }
    }

    /// Counts the case of line `number`. If it does not agree, `what` says what differs.
    pub fn count(&mut self, number: usize, agrees: bool, what: &str) -> Result<(), NoMemory> {
        self.tried = self.tried.saturating_add(1);
        if !agrees {
            self.differing = self.differing.saturating_add(1);
            let line = format!(in self.alloc; "  line {number}: {what}\n")?;
            self.report.push_str(line.as_str())?;
        }
        Ok(())
    }

    /// Counts the call of line `number`. If it does not agree, the way it ended is noted.
    pub fn count_call(
        &mut self,
        number: usize,
        agrees: bool,
        ended: &Ended,
    ) -> Result<(), NoMemory> {
        if agrees {
            return self.count(number, true, "");
        }
        let out = str::from_utf8(ended.out.bytes()).unwrap_or("?");
        let err = str::from_utf8(ended.err.bytes()).unwrap_or("?");
        let status = ended.status;
        let what = format!(in self.alloc; "status {status}, printed {out:?}, told {err:?}")?;
        self.count(number, false, what.as_str())
    }
}
