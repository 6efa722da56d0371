//! From the words of a command line to a command.

ghost use Rattle.std.specs.Prelude.{◌≡◌, ◌∷◌, IfOk, map, option_map, string_bytes, codes};
ghost use Rattle.clap.specs.Words.{found_of, rows_of, subcommand_rows_of};
ghost use Rattle.safl_command.specs.Commands.{command_of, command_of_line, given, command_in, shown_command, traces_in, change_in, word_of, reshaped};
ghost use Rattle.safl_command.specs.Traces.{shown_traces};

use crate::arguments::{
    args_in, count_in, has_flag, limit_in, name_in, number_in, number_of, word_in,
};
use crate::command::{Command, Turns};
use crate::forms::program;
use crate::traces::Traces;
use clap::ArgMatches;
use clap::error::ErrorKind;
use safl_word::NoMemory;
use std::alloc::Global;

/// The command that the words spell. None if they spell none.
pub fn read_words(alloc: Global, words: &[String]) -> Result<Option<Command>, NoMemory>
    ensures { IfOk result (λ c. option_map shown_command c ≡ command_of (map string_bytes words.now)) }
{
    let line = line_of(alloc, words)?;
    read_line(alloc, &line)
}

// The words, after a program name.
fn line_of<'a>(alloc: Global, words: &'a [String]) -> Result<Vec<&'a str>, NoMemory>
    ensures { IfOk result (λ line. map (λ word. word.now) line.items ≡ codes "safl" ∷ map string_bytes words.now) }
{
    let mut line: Vec<&'a str> = Vec::new(alloc);
    line.push("safl")?;
    for word in words {
        line.push(word.as_str())?;
    }
    Ok(line)
}

// The command that a line spells. The line begins with the program's name.
fn read_line<'a>(alloc: Global, line: &'a [&'a str]) -> Result<Option<Command>, NoMemory>
    ensures { IfOk result (λ c. option_map shown_command c ≡ command_of_line (map (λ word. word.now) line.now)) }
{
    let program = program(alloc)?;
    match program.try_get_matches_from(line) {
        Ok(matches) => read_matches(alloc, &matches),
        Err(error) if error.kind() == ErrorKind::OutOfMemory => Err(NoMemory),
        Err(_) => Ok(None),
    }
}

// The command of the subcommand that `clap` found.
fn read_matches(alloc: Global, matches: &ArgMatches<'_>) -> Result<Option<Command>, NoMemory>
    ensures { IfOk result (λ c. option_map shown_command c ≡ given (subcommand_rows_of matches.now) (λ e. command_in e.0 e.1)) }
{
    match matches.subcommand() {
        Some((word, values)) => command_in(alloc, word, values),
        None => Ok(None),
    }
}

// The command of this name, with the values of its arguments.
fn command_in(
    alloc: Global,
    word: &str,
    values: &ArgMatches<'_>,
) -> Result<Option<Command>, NoMemory>
    ensures { IfOk result (λ c. option_map shown_command c ≡ command_in word.now (rows_of (found_of values.now))) }
{
    if word == "check" {
        check_in(alloc, values)
    } else if word == "build" {
        build_in(alloc, values)
    } else if word == "sim" {
        sim_in(alloc, values)
    } else if word == "walk" {
        walk_in(alloc, values)
    } else if word == "run" {
        run_in(alloc, values)
    } else if word == "report" {
        report_in(alloc, values)
    } else if word == "gen" {
        Ok(gen_in(values))
    } else if word == "bench" {
        Ok(bench_in(values))
    } else if word == "reshape" {
        reshape_in(alloc, values)
    } else if word == "session" {
        session_in(alloc, values)
    } else if word == "aig" {
        aig_in(alloc, values)
    } else if word == "aigstat" {
        aigstat_in(alloc, values)
    } else {
        Ok(None)
    }
}

fn check_in(alloc: Global, values: &ArgMatches<'_>) -> Result<Option<Command>, NoMemory>
    ensures { IfOk result (λ c. option_map shown_command c ≡ command_in (codes "check") (rows_of (found_of values.now))) }
{
    let Some(input) = name_in(alloc, values, "IN")? else {
        return Ok(None);
    };
    Ok(Some(Command::Check { input }))
}

fn build_in(alloc: Global, values: &ArgMatches<'_>) -> Result<Option<Command>, NoMemory>
    ensures { IfOk result (λ c. option_map shown_command c ≡ command_in (codes "build") (rows_of (found_of values.now))) }
{
    let Some(input) = name_in(alloc, values, "IN")? else {
        return Ok(None);
    };
    let Some(output) = name_in(alloc, values, "OUT")? else {
        return Ok(None);
    };
    if has_flag(values, "opt") {
        return Ok(Some(Command::Optimise { input, output }));
    }
    Ok(Some(Command::Build { input, output }))
}

fn sim_in(alloc: Global, values: &ArgMatches<'_>) -> Result<Option<Command>, NoMemory>
    ensures { IfOk result (λ c. option_map shown_command c ≡ command_in (codes "sim") (rows_of (found_of values.now))) }
{
    let Some(input) = name_in(alloc, values, "IN")? else {
        return Ok(None);
    };
    let Some(limit) = limit_in(values, "cycles") else {
        return Ok(None);
    };
    let Some(traces) = traces_in(alloc, values)? else {
        return Ok(None);
    };
    let args = args_in(alloc, values)?;
    Ok(Some(Command::Sim {
        input,
        limit,
        traces,
        args,
    }))
}

// The files for traces. None if one of their names is empty or two are the same.
fn traces_in(alloc: Global, values: &ArgMatches<'_>) -> Result<Option<Traces>, NoMemory>
    ensures { IfOk result (λ t. option_map shown_traces t ≡ traces_in (rows_of (found_of values.now))) }
{
    let vcd = word_in(alloc, values, "vcd")?;
    let starts = word_in(alloc, values, "starts")?;
    let toggles = word_in(alloc, values, "toggles")?;
    Ok(Traces::new(vcd, starts, toggles))
}

fn walk_in(alloc: Global, values: &ArgMatches<'_>) -> Result<Option<Command>, NoMemory>
    ensures { IfOk result (λ c. option_map shown_command c ≡ command_in (codes "walk") (rows_of (found_of values.now))) }
{
    let Some(input) = name_in(alloc, values, "IN")? else {
        return Ok(None);
    };
    let Some(seed) = number_in(values, "order") else {
        return Ok(None);
    };
    let Some(steps) = limit_in(values, "steps") else {
        return Ok(None);
    };
    let args = args_in(alloc, values)?;
    let turns = Turns {
        seed,
        steps: steps as u32,
    };
    Ok(Some(Command::Walk { input, turns, args }))
}

fn run_in(alloc: Global, values: &ArgMatches<'_>) -> Result<Option<Command>, NoMemory>
    ensures { IfOk result (λ c. option_map shown_command c ≡ command_in (codes "run") (rows_of (found_of values.now))) }
{
    let Some(input) = name_in(alloc, values, "FILE")? else {
        return Ok(None);
    };
    let Some(limit) = limit_in(values, "cycles") else {
        return Ok(None);
    };
    let args = args_in(alloc, values)?;
    Ok(Some(Command::Run { input, limit, args }))
}

fn report_in(alloc: Global, values: &ArgMatches<'_>) -> Result<Option<Command>, NoMemory>
    ensures { IfOk result (λ c. option_map shown_command c ≡ command_in (codes "report") (rows_of (found_of values.now))) }
{
    let Some(input) = name_in(alloc, values, "IN")? else {
        return Ok(None);
    };
    Ok(Some(Command::Report { input }))
}

fn gen_in(values: &ArgMatches<'_>) -> Option<Command>
    ensures { option_map shown_command result ≡ command_in (codes "gen") (rows_of (found_of values.now)) }
{
    let Some(seed) = number_in(values, "SEED") else {
        return None;
    };
    let Some(count) = count_in(values, "COUNT") else {
        return None;
    };
    Some(Command::Gen { seed, count })
}

fn bench_in(values: &ArgMatches<'_>) -> Option<Command>
    ensures { option_map shown_command result ≡ command_in (codes "bench") (rows_of (found_of values.now)) }
{
    let Some(seed) = number_in(values, "SEED") else {
        return None;
    };
    let Some(count) = count_in(values, "COUNT") else {
        return None;
    };
    let Some(limit) = limit_in(values, "cycles") else {
        return None;
    };
    Some(Command::Bench { seed, count, limit })
}

fn reshape_in(alloc: Global, values: &ArgMatches<'_>) -> Result<Option<Command>, NoMemory>
    ensures { IfOk result (λ c. option_map shown_command c ≡ command_in (codes "reshape") (rows_of (found_of values.now))) }
{
    let Some(input) = name_in(alloc, values, "IN")? else {
        return Ok(None);
    };
    let Some(output) = name_in(alloc, values, "OUT")? else {
        return Ok(None);
    };
    Ok(change_in(values, input, output))
}

// The reshaping that the options ask for. None unless exactly one site is given, to be copied or to be unfolded.
fn change_in(values: &ArgMatches<'_>, input: String, output: String) -> Option<Command>
    ensures { option_map shown_command result ≡ change_in (string_bytes input) (string_bytes output) (rows_of (found_of values.now)) }
{
    let copied = values.get_str("copy");
    let unfolded = values.get_str("unfold");
    reshaped(input, output, copied, unfolded)
}

fn reshaped(
    input: String,
    output: String,
    copied: Option<&str>,
    unfolded: Option<&str>,
) -> Option<Command>
    ensures { option_map shown_command result ≡ reshaped (string_bytes input) (string_bytes output) (word_of copied.entry) (word_of unfolded.entry) }
{
    match (copied, unfolded) {
        (Some(word), None) => {
            let site = number_of(word)?;
            Some(Command::CopySite {
                input,
                output,
                site,
            })
        }
        (None, Some(word)) => {
            let site = number_of(word)?;
            Some(Command::UnfoldSite {
                input,
                output,
                site,
            })
        }
        _ => None,
    }
}

fn session_in(alloc: Global, values: &ArgMatches<'_>) -> Result<Option<Command>, NoMemory>
    ensures { IfOk result (λ c. option_map shown_command c ≡ command_in (codes "session") (rows_of (found_of values.now))) }
{
    let Some(input) = name_in(alloc, values, "IN")? else {
        return Ok(None);
    };
    let Some(script) = name_in(alloc, values, "SCRIPT")? else {
        return Ok(None);
    };
    let Some(limit) = limit_in(values, "cycles") else {
        return Ok(None);
    };
    Ok(Some(Command::Session {
        input,
        script,
        limit,
    }))
}

fn aig_in(alloc: Global, values: &ArgMatches<'_>) -> Result<Option<Command>, NoMemory>
    ensures { IfOk result (λ c. option_map shown_command c ≡ command_in (codes "aig") (rows_of (found_of values.now))) }
{
    let Some(input) = name_in(alloc, values, "FILE")? else {
        return Ok(None);
    };
    let Some(output) = name_in(alloc, values, "OUT")? else {
        return Ok(None);
    };
    Ok(Some(Command::Aig { input, output }))
}

fn aigstat_in(alloc: Global, values: &ArgMatches<'_>) -> Result<Option<Command>, NoMemory>
    ensures { IfOk result (λ c. option_map shown_command c ≡ command_in (codes "aigstat") (rows_of (found_of values.now))) }
{
    let Some(input) = name_in(alloc, values, "FILE")? else {
        return Ok(None);
    };
    Ok(Some(Command::Aigstat { input }))
}
