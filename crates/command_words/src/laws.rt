//! What holds of the table of commands, and of all command lines.
ghost use Rattle.std.specs.Prelude.{◌≡◌, map};
ghost use Rattle.command_words.specs.Table.{commands};
ghost use Rattle.command_words.specs.Law.{NamedOrRefused, named_options, told_command, told_commands, told_option};
ghost use Rattle.command_words.specs.Law.{told_options};

/// The commands and their options in plain words and numbers. Definitions read the table by name, so a changed table
/// would change these too.
pub fn told_table()
    ensures commands { map told_command commands ≡ told_commands }
    ensures options { map told_option named_options ≡ told_options }
{}

/// A command line names a command, unless `clap` refuses it.
pub fn named_or_refused()
    ensures { NamedOrRefused }
{}
