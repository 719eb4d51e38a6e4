//! The command line, read by `clap`: what it names by the table, or why it is refused.
ghost use Rattle.std.specs.Prelude.{◌≡◌, ◌⊎◌, IfOk, IfErr, IfSome, None, Some, [], map, string_bytes, false, option_map};
ghost use Rattle.clap.specs.Walk.{is_empty};
ghost use Rattle.clap.specs.Words.{fault_of, found_of, kind_of, rows_of, subcommand_of, subcommand_rows_of};
ghost use Rattle.command_words.specs.App.{the_app};
ghost use Rattle.command_words.specs.Table.{row_among, row_of};
ghost use Rattle.command_words.specs.Words.{ArePlain, AreWords, IsEntered, IsRefused, IsWithinLimits};
ghost use Rattle.command_words.specs.Words.{asked_in, command_of};

use crate::program::program;
use crate::rows::ACommand;
use crate::table::{COMMANDS, Command, CommandKind, asked_by};
use clap::error::ErrorKind;
use clap::{ArgMatches, Error};
use std::alloc::Global;

/// Why a command line names no command.
#[derive(Drop)]
pub enum Refusal {
    /// Out of memory.
    Memory,
    /// The command line is refused, or names help or the version: what there is to say, if there was memory for it.
    Words(Option<String>),
}

// The matches of a command line that the program takes, or why it refuses it.
fn parsed<'a>(alloc: Global, words: &'a [String]) -> Result<ArgMatches<'a>, Error>
    ensures fault { IfOk result (λ m. fault_of the_app (map string_bytes words.entry.now) ≡ []) }
    ensures matches { IfOk result (λ m.
        subcommand_rows_of m ≡ subcommand_of the_app (map string_bytes words.entry.now)) }
    ensures refused { IfErr result (λ e. (kind_of e ≡ ErrorKind.OutOfMemory)
        ⊎ (is_empty (fault_of the_app (map string_bytes words.entry.now)) ≡ false)) }
{
    program(alloc)?.try_get_matches_from(words)
}

// What there is to say of a command line that is refused.
fn refused_with(alloc: Global, error: &Error) -> Refusal
    ensures { AreWords result → (kind_of error.now ≡ ErrorKind.OutOfMemory) → ⊥ }
{
    match error.kind() {
        ErrorKind::OutOfMemory => Refusal::Memory,
        _ => Refusal::Words(format!(in alloc; "{error}").ok()),
    }
}

// Which command of these rows has this name.
fn kind_named(rows: &[ACommand], name: &str) -> Option<CommandKind>
    ensures { result ≡ option_map (λ row. row.kind) (row_among (map row_of rows.now) name.now) }
{
    for row in rows {
        if row.name == name {
            return Some(row.kind);
        }
    }
    None
}

// The command of this name, with its values; none where no command has the name.
fn asked_in(name: &str, matches: &ArgMatches<'_>) -> Option<Command>
    requires { IsEntered name.now (rows_of (found_of matches.now)) }
    ensures value { result ≡ asked_in name.now (rows_of (found_of matches.now)) }
    ensures limits { IfSome result IsWithinLimits }
{
    match kind_named(COMMANDS, name) {
        Some(kind) => Some(asked_by(kind, matches)),
        None => None,
    }
}

/// What the command line names: its words, the program's name first. Where `clap` refuses it, its own text tells what is
/// wrong.
pub fn command_of(alloc: Global, words: &[String]) -> Result<Command, Refusal>
    ensures some { IfOk result (λ c. command_of (map string_bytes words.now) ≡ Some c) }
    ensures limits { IfOk result IsWithinLimits }
    ensures none { IfErr result (λ e. AreWords e → command_of (map string_bytes words.now) ≡ None) }
    ensures refused { IfErr result (λ e. AreWords e → IsRefused (map string_bytes words.now)) }
    ensures plain { (c : Command) → ArePlain (map string_bytes words.now) c
        → command_of (map string_bytes words.now) ≡ Some c }
{
    let matches = match parsed(alloc, words) {
        Ok(matches) => matches,
        Err(error) => return Err(refused_with(alloc, &error)),
    };
    match matches.subcommand() {
        Some((name, matches)) => asked_in(name, matches).ok_or(Refusal::Words(None)),
        None => Err(Refusal::Words(None)),
    }
}
