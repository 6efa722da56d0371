//! Which probes are asked for traces, and for which files.

ghost use Rattle.std.specs.Prelude.{◌≡◌, IfOk, map, option_map, string_bytes};
ghost use Rattle.safl_command.specs.Traces.{files, shown_traces};
ghost use Rattle.safl_probe.specs.Asked.{Unbegun};
ghost use Rattle.safl_probe.specs.Watching.{kind_of};
ghost use Rattle.safl_tool.specs.Asking.{shown_name, traces_given, is_any_given, AsksFor};
ghost use Rattle.safl_tool.specs.Tracing.{file_of_kind, without};

use safl_command::Traces;
use safl_probe::{Probe, TraceKind, kind_of};
use std::alloc::{AllocError, Global};

/// For each probe the file that it is asked to write, if any: the first probe of a kind gets the file for traces of
/// that kind. None if no probe is left for some file. No probe may have begun.
pub fn asked_files(
    alloc: Global,
    traces: Option<&Traces>,
    probes: &[Box<dyn Probe>],
) -> Result<Option<Vec<Option<String>>>, AllocError>
    requires { Unbegun state probes.now }
    ensures { IfOk result (AsksFor (traces_given traces.entry) (map (λ p. state p) probes.now)) }
{
    let mut vcd = copy_of(alloc, traces, TraceKind::Vcd)?;
    let mut starts = copy_of(alloc, traces, TraceKind::Starts)?;
    let mut toggles = copy_of(alloc, traces, TraceKind::Toggles)?;
    let mut files = Vec::new(alloc);
    'probes: for i in 0..probes.len() {
        let kind = kind_of_probe(&probes[i]);
        let file = taken(kind, &mut vcd, &mut starts, &mut toggles);
        files.push(file)?;
    }
    if is_any(&vcd, &starts, &toggles) {
        return Ok(None);
    }
    Ok(Some(files))
}

// Whether any file is left.
fn is_any(vcd: &Option<String>, starts: &Option<String>, toggles: &Option<String>) -> bool
    ensures { result ≡ is_any_given (files vcd.now starts.now toggles.now) }
{
    vcd.is_some() || starts.is_some() || toggles.is_some()
}

// Takes the file for traces of a kind out of the files that are left.
fn taken(
    kind: TraceKind,
    vcd: &mut Option<String>,
    starts: &mut Option<String>,
    toggles: &mut Option<String>,
) -> Option<String>
    ensures file { option_map string_bytes result ≡ file_of_kind (files vcd.old starts.old toggles.old) kind }
    ensures left { files vcd.new starts.new toggles.new ≡ without (files vcd.old starts.old toggles.old) kind }
{
    match kind {
        TraceKind::Vcd => vcd.take(),
        TraceKind::Starts => starts.take(),
        TraceKind::Toggles => toggles.take(),
        TraceKind::Silent => None,
    }
}

// A copy of the name of the file for traces of a kind.
fn copy_of(
    alloc: Global,
    traces: Option<&Traces>,
    kind: TraceKind,
) -> Result<Option<String>, AllocError>
    ensures { IfOk result (λ copy. option_map string_bytes copy ≡ file_of_kind (traces_given traces.entry) kind) }
{
    let Some(traces) = traces else {
        return Ok(None);
    };
    let Some(name) = file_of(traces, kind) else {
        return Ok(None);
    };
    let copy = String::from_str(alloc, name)?;
    Ok(Some(copy))
}

/// The file for traces of a kind, if one is given.
pub fn file_of<'a>(traces: &'a Traces, kind: TraceKind) -> Option<&'a str>
    ensures { option_map shown_name result ≡ file_of_kind (shown_traces traces.now) kind }
{
    match kind {
        TraceKind::Vcd => text_of(&traces.vcd),
        TraceKind::Starts => text_of(&traces.starts),
        TraceKind::Toggles => text_of(&traces.toggles),
        TraceKind::Silent => None,
    }
}

fn text_of(name: &Option<String>) -> Option<&str>
    ensures { option_map shown_name result ≡ option_map string_bytes name.now }
{
    match name {
        Some(name) => Some(name.as_str()),
        None => None,
    }
}

/// The kind of traces that a probe writes.
pub fn kind_of_probe(probe: &Box<dyn Probe>) -> TraceKind
    ensures { result ≡ kind_of (state probe.now).kind }
{
    kind_of(probe.kind())
}
