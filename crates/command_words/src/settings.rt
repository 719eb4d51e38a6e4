//! How a frame is cut and shared. No setting changes the report.
ghost use Rattle.std.specs.Prelude.{◌≡◌};
ghost use Rattle.clap.specs.Words.{found_of, rows_of};
ghost use Rattle.command_words.specs.Words.{AreInRange, HaveValues, cut_by, cutting, settings_by, sharing, value_in};

use crate::table::{BATCH, BINS_X, BINS_Y, EARLY, STEAL, WORKERS};
use crate::values::{is_given, number, side};
use binning::Cut;
use clap::ArgMatches;

/// How many threads draw, into which bins the screen is cut, and how many pieces a batch has at least. Bins and batches
/// are for a frame that threads share.
#[derive(Clone, Copy)]
pub struct Settings {
    /// 1 to 64.
    pub workers: u32,
    /// Into 1 to 8 columns and rows.
    pub cut: Cut,
    /// 1 to 4096.
    pub batch: u32,
    /// Whether objects that references hide are settled while a frame is drawn.
    pub early: bool,
    /// Whether a worker that is done takes bins from the others.
    pub steal: bool,
}

/// How a frame is cut and shared, where each option of that has its value, and whether objects are settled early and
/// bins are taken from others.
pub fn cut_of(matches: &ArgMatches<'_>, early: bool, steal: bool) -> Settings
    requires { HaveValues cutting (rows_of (found_of matches.now)) }
    ensures value { result ≡ cut_by (value_in (rows_of (found_of matches.now))) early steal }
    ensures range { AreInRange result }
{
    let columns = side(matches, &BINS_X);
    let rows = side(matches, &BINS_Y);
    Settings {
        workers: number(matches, &WORKERS),
        cut: Cut::new(columns, rows).unwrap(),
        batch: number(matches, &BATCH),
        early,
        steal,
    }
}

/// The settings, where each of their options has its value.
pub fn settings_of(matches: &ArgMatches<'_>) -> Settings
    requires { HaveValues sharing (rows_of (found_of matches.now)) }
    ensures value { result ≡ settings_by (value_in (rows_of (found_of matches.now))) }
    ensures range { AreInRange result }
{
    let early = is_given(matches, &EARLY);
    let steal = is_given(matches, &STEAL);
    cut_of(matches, early, steal)
}
