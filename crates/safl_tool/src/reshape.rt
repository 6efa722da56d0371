//! The command `reshape IN OUT --copy K | --unfold K`: a source with a function copied or a call unfolded.

ghost use Rattle.std.specs.Prelude.{◌≡◌, ◌≤◌, ◌<◌, IfOk, IfErr, IfSome, IsNone, OnOk, length};
ghost use Rattle.safl_reshape.specs.declared.error.ReshapeErr.TheVariants as errors;
ghost use Rattle.safl_tree.specs.Printable.{IsPrintable};
ghost use Rattle.safl_tree.specs.Printed.{printed};
ghost use Rattle.safl_tree.specs.Shown.{shown_program};
ghost use Rattle.safl_task.specs.Tasks.{only_writes};
ghost use Rattle.safl_tool.specs.CommandTasks.{RefusesReshaping};
ghost use Rattle.safl_word.specs.Limits.{source_max, count_max};
ghost use Rattle.safl_tool.specs.Refusals.{RefusesBy};
ghost use Rattle.safl_tool.specs.declared.refusal.Refusal.TheVariants as refusals;
ghost use Rattle.safl_tool.specs.Reshaping.{GivesReshaped, HasReason, limit_text, TellsReason, TellsLong, copies, unfolds};

use crate::refusal::Refusal;
use crate::source::read_program;
use safl_reshape::laws::printed_form_law;
use safl_reshape::{ReshapeErr, copy_checked, unfold_checked};
use safl_tree::{Program, print};
use safl_word::limits::{COUNT_MAX, SOURCE_MAX};
use std::alloc::Global;

/// The text of the source `name` with the function that a site calls copied for that call, or why there is none.
pub fn copy_text<'a>(
    alloc: Global,
    name: &'a str,
    source: &[u8],
    site: u64,
) -> Result<Vec<u8>, Refusal<'a>>
    requires { length source.now ≤ source_max }
    ensures gives { IfOk result (λ text. GivesReshaped (copies site) source.now (only_writes text.items)) }
    ensures refused { IfErr result (RefusesBy (RefusesReshaping (copies site) name.now site source.now)) }
{
    printed_form_law();
    let accepted = read_program(alloc, name, source)?;
    let number = match site_number(site) {
        Some(number) => number,
        None => return Err(refusal_of(site, ReshapeErr::NoSite)),
    };
    match copy_checked(alloc, &accepted.program, &accepted.checked, number) {
        Ok(copy) => text_of(alloc, site, &copy),
        Err(error) => Err(refusal_of(site, error)),
    }
}

/// The text of the source `name` with the body of the called function in place of the call at a site, or why there is
/// none.
pub fn unfold_text<'a>(
    alloc: Global,
    name: &'a str,
    source: &[u8],
    site: u64,
) -> Result<Vec<u8>, Refusal<'a>>
    requires { length source.now ≤ source_max }
    ensures gives { IfOk result (λ text. GivesReshaped (unfolds site) source.now (only_writes text.items)) }
    ensures refused { IfErr result (RefusesBy (RefusesReshaping (unfolds site) name.now site source.now)) }
{
    printed_form_law();
    let accepted = read_program(alloc, name, source)?;
    let number = match site_number(site) {
        Some(number) => number,
        None => return Err(refusal_of(site, ReshapeErr::NoSite)),
    };
    match unfold_checked(alloc, &accepted.program, &accepted.checked, number) {
        Ok(unfolded) => text_of(alloc, site, &unfolded),
        Err(error) => Err(refusal_of(site, error)),
    }
}

// The text of a reshaped program, if it is no longer than a source may be.
fn text_of<'a>(alloc: Global, site: u64, program: &Program) -> Result<Vec<u8>, Refusal<'a>>
    requires { IsPrintable (shown_program program.now) }
    ensures text { IfOk result (λ text. text.items ≡ printed (shown_program program.now)) }
    ensures short { OnOk result (length (printed (shown_program program.now)) ≤ source_max) }
    ensures refused { IfErr result (RefusesBy (TellsLong site (printed (shown_program program.now)))) }
{
    let text = print(alloc, program)?;
    if text.len() > SOURCE_MAX {
        return Err(Refusal::Site(site, "text too long"));
    }
    Ok(text)
}

// The number of a site, if it is one that a program can have.
fn site_number(site: u64) -> Option<u32>
    ensures number { IfSome result (λ n. n ≡ site) }
    ensures none { IsNone result → count_max < site }
{
    if site > u64::from(COUNT_MAX) {
        None
    } else {
        Some(site as u32)
    }
}

fn refusal_of<'a>(site: u64, error: ReshapeErr) -> Refusal<'a>
    ensures tells { RefusesBy (TellsReason site error) result }
    ensures memory { result ≡ refusals.NoMemory → error ≡ errors.NoMemory }
{
    match reason(error) {
        Some(text) => Refusal::Site(site, text),
        None => Refusal::NoMemory,
    }
}

// Why a site cannot be reshaped, in words. None stands for out of memory.
fn reason(error: ReshapeErr) -> Option<&'static str>
    ensures text { IfSome result (λ text. HasReason error text.now) }
    ensures none { IsNone result → error ≡ errors.NoMemory }
{
    match error {
        ReshapeErr::NoSite => Some("no such site"),
        ReshapeErr::Grouped => Some("grouped"),
        ReshapeErr::Recursive => Some("recursive"),
        ReshapeErr::NameLong => Some("name too long"),
        ReshapeErr::NameTaken => Some("name taken"),
        ReshapeErr::Limit(limit) => Some(limit_text(limit)),
        ReshapeErr::TooDeep => Some("nesting too deep"),
        ReshapeErr::NoMemory => None,
    }
}

fn limit_text(limit: u32) -> &'static str
    ensures { result.now ≡ limit_text limit }
{
    match limit {
        1 => "limit: functions 1000",
        4 => "limit: sites 4000",
        _ => "limit: nodes 50000",
    }
}
