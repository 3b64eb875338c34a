//! What `clap` makes of the table of commands.

ghost use Rattle.std.specs.Prelude.{◌≡◌, None, Some, false, map};
ghost use Rattle.clap.specs.Simple.{app_of};
ghost use Rattle.clap.specs.declared.builder.command.Command.TheViews.{out-Command as fields_of};
ghost use Rattle.clap.specs.declared.builder.texts.Texts.TheVariants.{One};
ghost use Rattle.awari_words.specs.Commands.{awari, awari_commands, parser_of, shape_of_row, word_rule};
ghost use Rattle.awari_words.specs.Making.{IsArg, IsCommand, MakesApp, MakesCommand, with_subcommands};

use crate::commands::{COMMANDS, CommandRow, Kind, Text, Values, Word, Words};
use crate::helps::{AWARI_HELP, STUDY, VERSION};
use clap::builder::ValueParser;
use clap::{Arg, ArgAction, Command, value_parser};
use std::alloc::{AllocError, Global};

/// The program with all its commands.
pub(crate) fn commands<'a>(alloc: Global) -> Result<Command<'a>, AllocError>
    ensures { MakesApp result awari_commands }
{
    with_rows(alloc, awari_command(alloc), &COMMANDS)
}

/// The program, with no command yet.
fn awari_command<'a>(alloc: Global) -> Command<'a>
    ensures { IsCommand result awari }
{
    Command::new(alloc, "awari")
        .about("Awari endgame tables that are proved right")
        .version(VERSION)
        .after_help(AWARI_HELP)
        .arg_required_else_help(true)
        .subcommand_required(true)
}

/// The program with a command more for each of these rows.
fn with_rows<'a>(
    alloc: Global,
    awari: Command<'a>,
    rows: &[CommandRow<Text, Words>],
) -> Result<Command<'a>, AllocError>
    requires { (fields_of awari).has_globals ≡ false }
    ensures { MakesApp result (with_subcommands (app_of awari.entry) (map (shape_of_row (λ t. t.now) (λ w. w.now)) rows.now)) }
{
    let mut awari = awari;
    for row in rows {
        awari = awari.subcommand(command(alloc, row)?)?;
    }
    Ok(awari)
}

/// The command of a row.
fn command<'a>(alloc: Global, row: &CommandRow<Text, Words>) -> Result<Command<'a>, AllocError>
    ensures { MakesCommand result (shape_of_row (λ t. t.now) (λ w. w.now) row.now) }
{
    let mut command = Command::new(alloc, row.name)
        .about(row.about)
        .after_help(row.help);
    for word in row.words {
        command = command.arg(argument(alloc, *word))?;
    }
    Ok(command)
}

fn argument<'a>(alloc: Global, word: Word<Text>) -> Arg<'a>
    ensures { IsArg result (word_rule (λ t. t.now) word.entry) }
{
    let Word(name, kind, help) = word;
    let argument = Arg::new(alloc, name).help(help);
    match kind {
        Kind::Needed(values) => of_values(argument.required(true), values),
        Kind::Optional(values) => of_values(argument, values),
        Kind::OrZero(values) => of_values(argument.default_value("0"), values),
        Kind::Many => argument.action(ArgAction::Append),
        Kind::Flag => argument.long(name).action(ArgAction::SetTrue),
        Kind::Valued(value, values) => option(argument, name, value, values),
        Kind::Short(letter, value, values) => option(argument, name, value, values).short(letter),
        Kind::Defaulted(value, values, default) => {
            option(argument, name, value, values).default_value(default)
        }
        Kind::Study(value, values, default) => option(argument, name, value, values)
            .default_value(default)
            .help_heading(STUDY),
    }
}

/// The argument as the option `--name VALUE`.
fn option<'a>(argument: Arg<'a>, name: Text, value: Text, values: Values) -> Arg<'a>
    requires { argument.value_parser ≡ None }
    ensures { result ≡ record argument.entry { long = Some name.entry; val_names = One value.entry; value_parser = parser_of values } }
{
    of_values(argument.long(name).value_name(value), values)
}

/// The argument, whose values are of these.
fn of_values<'a>(argument: Arg<'a>, values: Values) -> Arg<'a>
    requires { argument.value_parser ≡ None }
    ensures { result ≡ record argument.entry { value_parser = parser_of values } }
{
    match values {
        Values::AnyText => argument,
        Values::Name => argument.value_parser(ValueParser::NonEmptyString),
        Values::U8 => argument.value_parser(value_parser!(u8)),
        Values::U32 => argument.value_parser(value_parser!(u32)),
        Values::Between(least, most) => argument.value_parser(ValueParser::unsigned(least, most)),
    }
}
