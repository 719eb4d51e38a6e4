//! The values that options have among the matches of a command line.
ghost use Rattle.std.specs.Prelude.{◌≡◌, ◌≤◌, ◌⊎◌, None, is_some, unwrap_or};
ghost use Rattle.clap.specs.Words.{found_of, one_of, rows_of};
ghost use Rattle.command_words.specs.Words.{IsFlag, IsNumbered, flag_said, number_said};

use crate::rows::AnOption;
use clap::ArgMatches;

/// The number of an option, if it has one.
pub fn number_of(matches: &ArgMatches<'_>, option: &AnOption) -> Option<u32>
    requires { IsNumbered (rows_of (found_of matches.now)) option.now.name.now 0 4294967295
        ⊎ (one_of option.now.name.now (rows_of (found_of matches.now)) ≡ None) }
    ensures { result ≡ number_said (one_of option.now.name.now (rows_of (found_of matches.now))) }
{
    matches.get_one::<u32>(option.name)
}

/// The number of an option that has one.
pub fn number(matches: &ArgMatches<'_>, option: &AnOption) -> u32
    requires { IsNumbered (rows_of (found_of matches.now)) option.now.name.now 0 4294967295 }
    ensures { result
        ≡ unwrap_or (number_said (one_of option.now.name.now (rows_of (found_of matches.now)))) 0 }
{
    number_of(matches, option).unwrap()
}

/// The number of columns or rows of bins, 1 to 8.
pub fn side(matches: &ArgMatches<'_>, option: &AnOption) -> u8
    requires { IsNumbered (rows_of (found_of matches.now)) option.now.name.now 1 8 }
    ensures value { result
        ≡ unwrap_or (number_said (one_of option.now.name.now (rows_of (found_of matches.now)))) 0 }
    ensures some { 1 ≤ result }
    ensures few { result ≤ 8 }
{
    number(matches, option) as u8
}

/// Whether a flag is given.
pub fn is_given(matches: &ArgMatches<'_>, option: &AnOption) -> bool
    requires { IsFlag option.now.name.now (rows_of (found_of matches.now)) }
    ensures { result ≡ is_some (flag_said (one_of option.now.name.now (rows_of (found_of matches.now)))) }
{
    matches.get_flag(option.name)
}
