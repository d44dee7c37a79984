//! The arguments for `clap`, with their ranges and their help.
//! See docs/crawlgate.1.md.
ghost use Rattle.std.specs.Prelude.{◌≡◌, Some};

use crate::arguments::{Argument, ArgumentText, SubcommandArguments};
use crate::help;
use crate::number_options::NumberOption;
use crate::word_arguments::{WordArgument, WordForm};
use clap::{Arg, ArgAction, Command};
use std::alloc::{AllocError, Global};

/// The program with its subcommands, whose arguments have these texts in the help.
// (`clap`'s values are large: each function here has one, and what it adds is made by another.)
pub(crate) fn program<'a>(
    alloc: Global,
    subcommands: &[SubcommandArguments],
    texts: &'a [Vec<ArgumentText>],
) -> Result<Command<'a>, AllocError> {
    let commands = commands(alloc, subcommands, texts)?;
    Command::new(alloc, "crawlgate")
        .about("A gate for web crawlers, under every site's robots.txt (RFC 9309)")
        .version(help::VERSION)
        .subcommand_required(true)
        .subcommands(commands)
}

fn commands<'a>(
    alloc: Global,
    subcommands: &[SubcommandArguments],
    texts: &'a [Vec<ArgumentText>],
) -> Result<Vec<Command<'a>>, AllocError> {
    let mut commands = Vec::new(alloc);
    for (subcommand, texts) in subcommands.iter().zip(texts) {
        commands.push(command_of(alloc, subcommand, texts.as_slice())?)?;
    }
    Ok(commands)
}

fn command_of<'a>(
    alloc: Global,
    subcommand: &SubcommandArguments,
    texts: &'a [ArgumentText],
) -> Result<Command<'a>, AllocError> {
    let mut args = Vec::new(alloc);
    add_arguments(alloc, subcommand.arguments, texts, &mut args)?;
    Command::new(alloc, subcommand.name)
        .about(subcommand.about)
        .after_help(subcommand.lines)
        .args(args)
}

fn add_arguments<'a>(
    alloc: Global,
    arguments: &[Argument],
    texts: &'a [ArgumentText],
    args: &mut Vec<Arg<'a>>,
) -> Result<(), AllocError> {
    for (argument, text) in arguments.iter().zip(texts) {
        add_argument(alloc, argument, text, args)?;
    }
    Ok(())
}

fn add_argument<'a>(
    alloc: Global,
    argument: &Argument,
    text: &'a ArgumentText,
    args: &mut Vec<Arg<'a>>,
) -> Result<(), AllocError> {
    args.push(arg_of(alloc, argument, text)?)?;
    Ok(())
}

fn arg_of<'a>(
    alloc: Global,
    argument: &Argument,
    text: &'a ArgumentText,
) -> Result<Arg<'a>, AllocError> {
    match argument {
        Argument::Number(argument) => number(alloc, argument.option, text).requires_all(
            argument.needs,
        ),
        Argument::Word(argument) => word(alloc, argument, text),
    }
}

// A number option with its range and its default, matched under its own name.
fn number<'a>(alloc: Global, option: NumberOption, text: &'a ArgumentText) -> Arg<'a>
    ensures id { result.id.now ≡ option.name.now }
    ensures long { result.long ≡ Some option.name }
{
    let number = Arg::new(alloc, option.name)
        .long(option.name)
        .value_name("N")
        .action(ArgAction::Set)
        .value_parser(clap::value_parser!(u64).range(bound(option.least)..=bound(option.most)))
        .help(text.about.as_str());
    match &text.usual {
        Some(usual) => number.default_value(usual.as_str()),
        None => number,
    }
}

// A bound of a number's range, as `clap` takes it. (None of the table is above the most of its type.)
fn bound(number: u64) -> i64 {
    i64::try_from(number).unwrap_or(i64::MAX)
}

fn word<'a>(
    alloc: Global,
    argument: &WordArgument,
    text: &'a ArgumentText,
) -> Result<Arg<'a>, AllocError> {
    let word = Arg::new(alloc, argument.name)
        .action(argument.form.action())
        .required(argument.form.is_required())
        .value_names(argument.values)
        .help(text.about.as_str());
    in_form(word, argument)
        .conflicts_with_all(argument.conflicts)?
        .requires_all(argument.needs)
}

// The argument by its name, or by its place.
fn in_form<'a>(arg: Arg<'a>, argument: &WordArgument) -> Arg<'a> {
    match argument.form {
        WordForm::Flag | WordForm::Text | WordForm::Texts => arg.long(argument.name),
        WordForm::Word => arg,
        WordForm::Words => arg.num_args(1..),
    }
}
