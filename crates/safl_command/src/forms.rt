//! The forms of the commands, as `clap` takes them.

ghost use Rattle.std.specs.Prelude.{◌≡◌, IfOk, false, map};
ghost use Rattle.clap.specs.Words.{rule_of, app_of, shape_of};
ghost use Rattle.clap.specs.declared.builder.command.Command.TheViews.{out-Command};
ghost use Rattle.safl_command.specs.Forms.{rule, shown_argument, shown_form, form_shape, app, bare, with_forms};

use clap::{Arg, ArgAction, Command};
use std::alloc::{AllocError, Global};

/// What may follow a command's own word.
#[derive(Clone, Copy)]
pub enum Argument<'a> {
    /// A word that is required, such as `IN`.
    Name(&'a str),
    /// An option with a value that is required, such as `--cycles L`.
    Option(&'a str),
    /// An option with a value that may be left out, such as `--copy K`.
    Choice(&'a str),
    /// An option without a value, such as `--opt`.
    Flag(&'a str),
    /// Any number of words, as in `[ARG..]`.
    Rest(&'a str),
}

/// A command's own word, and what may follow it.
#[derive(Clone, Copy)]
pub struct Form<'a> {
    pub word: &'a str,
    pub arguments: &'a [Argument<'a>],
}

/// The forms of all commands.
static FORMS: [Form<'static>; 12] = [
    Form {
        word: "check",
        arguments: &[Argument::Name("IN")],
    },
    Form {
        word: "build",
        arguments: &[
            Argument::Name("IN"),
            Argument::Name("OUT"),
            Argument::Flag("opt"),
        ],
    },
    Form {
        word: "sim",
        arguments: &[
            Argument::Name("IN"),
            Argument::Option("cycles"),
            Argument::Choice("vcd"),
            Argument::Choice("starts"),
            Argument::Choice("toggles"),
            Argument::Rest("ARG"),
        ],
    },
    Form {
        word: "walk",
        arguments: &[
            Argument::Name("IN"),
            Argument::Option("order"),
            Argument::Option("steps"),
            Argument::Rest("ARG"),
        ],
    },
    Form {
        word: "run",
        arguments: &[
            Argument::Name("FILE"),
            Argument::Option("cycles"),
            Argument::Rest("ARG"),
        ],
    },
    Form {
        word: "report",
        arguments: &[Argument::Name("IN")],
    },
    Form {
        word: "gen",
        arguments: &[Argument::Name("SEED"), Argument::Name("COUNT")],
    },
    Form {
        word: "bench",
        arguments: &[
            Argument::Name("SEED"),
            Argument::Name("COUNT"),
            Argument::Option("cycles"),
        ],
    },
    Form {
        word: "reshape",
        arguments: &[
            Argument::Name("IN"),
            Argument::Name("OUT"),
            Argument::Choice("copy"),
            Argument::Choice("unfold"),
        ],
    },
    Form {
        word: "session",
        arguments: &[
            Argument::Name("IN"),
            Argument::Name("SCRIPT"),
            Argument::Option("cycles"),
        ],
    },
    Form {
        word: "aig",
        arguments: &[Argument::Name("FILE"), Argument::Name("OUT")],
    },
    Form {
        word: "aigstat",
        arguments: &[Argument::Name("FILE")],
    },
];

fn arg_of<'a>(alloc: Global, argument: Argument<'a>) -> Arg<'a>
    ensures rule { rule_of result ≡ rule (shown_argument argument.entry) }
    ensures local { result.global ≡ false }
{
    match argument {
        Argument::Name(id) => Arg::new(alloc, id).required(true),
        Argument::Option(id) => Arg::new(alloc, id).long(id).required(true),
        Argument::Choice(id) => Arg::new(alloc, id).long(id),
        Argument::Flag(id) => Arg::new(alloc, id).long(id).action(ArgAction::SetTrue),
        Argument::Rest(id) => Arg::new(alloc, id).action(ArgAction::Append),
    }
}

fn subcommand_of<'a>(alloc: Global, form: Form<'a>) -> Result<Command<'a>, AllocError>
    ensures shape { IfOk result (λ c. shape_of c ≡ form_shape (shown_form form.entry)) }
    ensures local { IfOk result (λ c. (out-Command c).has_globals ≡ false) }
{
    let mut command = Command::new(alloc, form.word);
    for word in form.arguments {
        command = command.arg(arg_of(alloc, *word))?;
    }
    Ok(command)
}

/// The program as a command of `clap`, with a subcommand for each form.
pub fn program<'a>(alloc: Global) -> Result<Command<'a>, AllocError>
    ensures { IfOk result (λ c. app_of c ≡ app) }
{
    with_forms(alloc, FORMS.as_slice())
}

fn with_forms<'a>(alloc: Global, forms: &'a [Form<'a>]) -> Result<Command<'a>, AllocError>
    ensures { IfOk result (λ c. app_of c ≡ with_forms bare (map shown_form forms.now)) }
{
    let mut command = Command::new(alloc, "safl").subcommand_required(true);
    for each in forms {
        command = command.subcommand(subcommand_of(alloc, *each)?)?;
    }
    Ok(command)
}
