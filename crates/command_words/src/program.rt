//! The program as `clap` knows it: its version, the commands of the table, their options, and what help says of them.
ghost use Rattle.std.specs.Prelude.{◌≡◌, IfOk, IfErr, [], false};
ghost use Rattle.clap.specs.Words.{app_of, kind_of, rule_of};
ghost use Rattle.clap.specs.declared.builder.Command.TheViews.{out-Command as fields_of};
ghost use Rattle.command_words.specs.App.{rule_for, shape_for, the_app};
ghost use Rattle.command_words.specs.Table.{option_of, row_of};

use crate::VERSION;
use crate::rows::{ACommand, AnOption, Takes};
use crate::table::COMMANDS;
use clap::error::ErrorKind;
use clap::{Arg, ArgAction, Command, Error, value_parser};
use std::alloc::Global;

const ABOUT: &str = "Says which objects of a scene are hidden behind its triangles";

const MORE: &str = "A command's own help says what it reads and writes. Notes go to standard error.

Exit status:
  0  done: the input was read and the report written
  2  the command line was refused, or help or the version was printed
  3  the input is no scene
  4  the input couldn't be read
  5  the report couldn't be written
  6  the notes couldn't be written
  7  out of memory
  9  the log is refused
  10  the scene has no such frame";

// An option of the table.
fn argument<'a>(alloc: Global, option: &AnOption) -> Arg<'a>
    ensures rule { rule_of result ≡ rule_for (option_of option.now) }
    ensures local { result.global ≡ false }
{
    let argument = Arg::new(alloc, option.name)
        .long(option.name)
        .help(option.help);
    match option.takes {
        Takes::Number {
            least,
            most,
            default,
        } => {
            let range = i64::from(least)..=i64::from(most);
            let argument = argument.value_parser(value_parser!(u32).range(range));
            match default {
                Some(text) => argument.default_value(text),
                None => argument,
            }
        }
        Takes::Nothing => argument.action(ArgAction::SetTrue),
    }
}

// A command of the table. The error is want of memory.
fn command<'a>(alloc: Global, row: &ACommand) -> Result<Command<'a>, Error>
    ensures memory { IfErr result (λ e. kind_of e ≡ ErrorKind.OutOfMemory) }
    ensures app { IfOk result (λ c. app_of c ≡ record { top = shape_for (row_of row.now); subs = [] }) }
    ensures local { IfOk result (λ c. (fields_of c).has_globals ≡ false) }
{
    let mut command = Command::new(alloc, row.name)
        .about(row.about)
        .after_help(row.more);
    for option in row.options {
        command = command.arg(argument(alloc, option))?;
    }
    Ok(command)
}

/// The program: one of its commands must be named. The error is want of memory.
pub fn program<'a>(alloc: Global) -> Result<Command<'a>, Error>
    ensures memory { IfErr result (λ e. kind_of e ≡ ErrorKind.OutOfMemory) }
    ensures app { IfOk result (λ c. app_of c ≡ the_app) }
{
    let mut program = Command::new(alloc, "maskcull")
        .version(VERSION)
        .about(ABOUT)
        .after_help(MORE)
        .subcommand_required(true);
    for row in COMMANDS {
        program = program.subcommand(command(alloc, row)?)?;
    }
    Ok(program)
}
