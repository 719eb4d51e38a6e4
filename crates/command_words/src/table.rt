//! The table of commands: what each is called, which options it has, what help says of both, and what it carries of
//! what its options say. What a command line names and how clap reads it are definitions over it.
ghost use Rattle.std.specs.Prelude.{◌≡◌};
ghost use Rattle.clap.specs.Words.{found_of, rows_of};
ghost use Rattle.command_words.specs.Words.{HaveValues, IsWithinLimits, asked_by, options_by, own_values, value_in};

use crate::rows::{ACommand, AnOption, CommandRow, OptionRow, Takes};
use crate::settings::{Settings, cut_of, settings_of};
use crate::values::{number, number_of};
use clap::ArgMatches;

// An option with a number, whose help tells the range. The default is decimal text without leading zeros.
macro_rules! number {
    ($name:literal, $least:literal to $most:literal, $default:literal, $help:literal) => {
        OptionRow {
            name: $name,
            takes: Takes::Number {
                least: $least,
                most: $most,
                default: Some($default),
            },
            help: concat!($help, ", ", $least, " to ", $most),
        }
    };
}

pub const WORKERS: AnOption = number!("workers", 1 to 64, "1", "How many threads draw");

pub const BINS_X: AnOption =
    number!("bins-x", 1 to 8, "1", "Into how many columns of bins the screen is cut, for a frame that threads share");

pub const BINS_Y: AnOption =
    number!("bins-y", 1 to 8, "1", "Into how many rows of bins the screen is cut, for a frame that threads share");

pub const BATCH: AnOption =
    number!("batch", 1 to 4096, "64", "How many pieces a batch has at least, for a frame that threads share");

pub const ROUNDS: AnOption =
    number!("rounds", 1 to 8, "1", "How often the objects are looked at in each frame");

pub const WATCH: AnOption =
    number!("watch", 1 to 8, "1", "How many of the first objects are looked at");

pub const SEED: AnOption = number!("seed", 0 to 4294967295, "1", "The number that makes the scene");

pub const TRIANGLES: AnOption =
    number!("triangles", 0 to 65536, "20000", "How many triangles the scene has");

pub const FRAME: AnOption = number!("frame", 0 to 255, "0", "Which frame is drawn");

// It has no default: without it there are no groups.
pub const GROUP: AnOption = OptionRow {
    name: "group",
    takes: Takes::Number {
        least: 1,
        most: 64,
        default: None,
    },
    help: "So many boxes that follow on one another are tested as one first, and a line a frame is noted, 1 to 64",
};

pub const EARLY: AnOption = OptionRow {
    name: "early",
    takes: Takes::Nothing,
    help: "Settle objects that are hidden for good while a frame is drawn; the report stays the same",
};

pub const STEAL: AnOption = OptionRow {
    name: "steal",
    takes: Takes::Nothing,
    help: "Let workers that are done take bins from others, for live and --early; the report stays the same",
};

/// A command without options.
#[derive(Clone, Copy)]
pub enum BareCommand {
    /// A scene from the input; it is written in version 2.
    Upgrade,
}

/// Which command it is.
#[derive(Clone, Copy)]
pub enum CommandKind {
    Cull,
    Live,
    Demo,
    Check,
    Picture,
    Bare(BareCommand),
}

/// Reads a scene and writes its report.
pub const CULL: ACommand = CommandRow {
    kind: CommandKind::Cull,
    name: "cull",
    about: "Reads a scene from standard input and writes its report to standard output",
    more: "Reads the bytes of a scene from standard input, to their end.
Writes to standard output a header, and for each frame: how many pieces it has, whether each object is visible, occluded
or outside the screen, and how many are. No option changes a byte of it.
For a path of many cameras give --workers alone: without --early and --steal each thread draws frames of its own while
the scene has as many left, and bins and batches change nothing. For a single frame, which threads share, give bins too.
With --group boxes that follow on one another in the scene are taken in groups. Those count in a frame that have all
corners in front of the near plane, or on it, and within the guard, and a rectangle with a pixel on the screen. Where a
rectangle around those of a group that count, as near as the nearest of them, is hidden, each of these is occluded, and
none is tested by itself if the group before was hidden too. After a frame's lines of the report a line on standard
error tells it: groups, the frame, count and how many groups there are, hidden and how many of them are hidden, members
and how many boxes of these count.
Tells on standard error why a run isn't done.

Exit status:
  0  done: the input was read and the report written, and each group line noted
  2  the command line was refused, or help was printed
  3  the input is no scene
  4  the input couldn't be read
  5  the report couldn't be written
  6  the notes couldn't be written
  7  out of memory",
    options: &[WORKERS, BINS_X, BINS_Y, BATCH, EARLY, STEAL, GROUP],
};

/// The same, and looks at objects while each frame is drawn.
pub const LIVE: ACommand = CommandRow {
    kind: CommandKind::Live,
    name: "live",
    about: "Reads a scene and writes its report, as cull does, and notes looks at its objects while it is drawn",
    more: "Reads the bytes of a scene from standard input, to their end.
Writes to standard output the report, as cull does. No option changes a byte of it.
While a frame is drawn, its first objects are looked at in turn, --watch of them or all where there are fewer, --rounds
times over. After the frame's lines of the report, each look has a line on standard error: live, the frame, the round,
the object, its verdict at the look, and TILE:COUNT for each tile of the object's area, where COUNT says from how many
pieces of that tile's list the verdict was found.
Tells on standard error why a run isn't done.

Exit status:
  0  done: the input was read, the report written and each look noted
  2  the command line was refused, or help was printed
  3  the input is no scene
  4  the input couldn't be read
  5  the report couldn't be written
  6  the notes couldn't be written
  7  out of memory",
    options: &[WORKERS, BINS_X, BINS_Y, BATCH, ROUNDS, WATCH, EARLY, STEAL],
};

/// Makes a scene from a number and writes its summary.
pub const DEMO: ACommand = CommandRow {
    kind: CommandKind::Demo,
    name: "demo",
    about: "Makes a scene from a number and writes a summary of its report to standard output",
    more: "Reads nothing: the scene is made of a number, with 500 boxes as objects, and 4 frames.
Writes to standard output a header, and for each frame: how many pieces it has, and how many boxes are visible, occluded
or outside the screen. Of the options only --seed and --triangles change it.
With --workers up to 4 and without --early and --steal each thread draws frames of its own, and bins and batches change
nothing; otherwise threads share each frame.
Tells on standard error why a run isn't done.

Exit status:
  0  done: the summary was written
  2  the command line was refused, or help was printed
  5  the summary couldn't be written
  7  out of memory",
    options: &[
        WORKERS, BINS_X, BINS_Y, BATCH, SEED, TRIANGLES, EARLY, STEAL,
    ],
};

/// Reads a scene and writes it in the newest version of its layout.
pub const UPGRADE: ACommand = CommandRow {
    kind: CommandKind::Bare(BareCommand::Upgrade),
    name: "upgrade",
    about: "Reads a scene from standard input and writes it in version 2 to standard output",
    more: "Reads the bytes of a scene of version 1 or 2 from standard input, to their end.
Writes to standard output the same scene in version 2. Its report stays the same: a scene of version 1 is narrow, and
its occluder triangles are one batch with its winding. To make it wide set byte 13 to 1.
Tells on standard error why a run isn't done.

Exit status:
  0  done: the input was read and the scene written
  2  the command line was refused, or help was printed
  3  the input is no scene
  4  the input couldn't be read
  5  the scene couldn't be written
  7  out of memory",
    options: &[],
};

/// Reads a scene and a log, and says whether `live` may have noted it.
pub const CHECK: ACommand = CommandRow {
    kind: CommandKind::Check,
    name: "check",
    about: "Reads a scene and a log of live from standard input, and says whether live may have noted the log",
    more: "Reads from standard input four bytes with the length of a scene, lowest byte first, then so many bytes of the
scene, then the log, to its end where it is accepted.
Writes to standard output log accepted where the log is what live may note of the scene with these numbers of rounds and
of objects: each line has the verdict after the pieces that it states, and within a frame no tile's count falls. Else
writes log refused L, where L says how many lines in front are good.
A log is standard error of a run of live that ended with status 0.
Tells on standard error why a run isn't done.

Exit status:
  0  done: the log is accepted
  2  the command line was refused, or help was printed
  3  the input has no scene in front
  4  the input couldn't be read
  5  the answer couldn't be written
  7  out of memory
  9  the log is refused",
    options: &[ROUNDS, WATCH],
};

/// Reads a scene and writes a picture of one of its frames.
pub const PICTURE: ACommand = CommandRow {
    kind: CommandKind::Picture,
    name: "picture",
    about: "Reads a scene from standard input and writes a grey map of one frame's depths to standard output",
    more: "Reads the bytes of a scene from standard input, to their end.
Draws one frame, that of the number --frame, and writes to standard output for each pixel how near what is drawn is at
least: a grey map in the plain form of PGM, from 0, where nothing is known, to 65535, at the near distance. These are
the numbers with which tests compare, in a wide scene over 256. No option but --frame changes a byte of it.
Tells on standard error why a run isn't done.

Exit status:
  0  done: the input was read and the picture written
  2  the command line was refused, or help was printed
  3  the input is no scene
  4  the input couldn't be read
  5  the picture couldn't be written
  7  out of memory
  10  the scene has no such frame",
    options: &[WORKERS, BINS_X, BINS_Y, BATCH, FRAME],
};

/// The commands, in the order of the program's help.
pub const COMMANDS: &[ACommand] = &[CULL, LIVE, DEMO, UPGRADE, CHECK, PICTURE];

/// What `cull` is to do: with boxes in groups of at most so many, 1 to 64, or without groups.
#[derive(Clone, Copy)]
pub struct CullWords {
    pub settings: Settings,
    pub group: Option<u32>,
}

/// What `live` is to do: so many rounds of looks at the first objects, of so many, while each frame is drawn. 1 to 8
/// each.
#[derive(Clone, Copy)]
pub struct LiveWords {
    pub settings: Settings,
    pub rounds: u32,
    pub watch: u32,
}

/// What `demo` is to do: the seed that makes the scene, and its number of triangles, at most 65,536.
#[derive(Clone, Copy)]
pub struct DemoWords {
    pub settings: Settings,
    pub seed: u32,
    pub triangles: u32,
}

/// What `check` is to do: whether the log may be one of so many rounds of looks at the first objects, of so many. 1 to
/// 8 each.
#[derive(Clone, Copy)]
pub struct CheckWords {
    pub rounds: u32,
    pub watch: u32,
}

/// What `picture` is to do: the number of the frame, at most 255. Nothing is settled early, and no bin is taken from
/// another worker.
#[derive(Clone, Copy)]
pub struct PictureWords {
    pub settings: Settings,
    pub frame: u32,
}

/// A command, with what its options say.
#[derive(Clone, Copy)]
pub enum Command {
    /// A scene from the input; its report is written.
    Cull(CullWords),
    /// The same, with looks at its first objects; what they show is noted.
    Live(LiveWords),
    /// A scene that a seed makes; its summary is written.
    Demo(DemoWords),
    /// The length of a scene, the scene and a log from the input; whether `live` may have noted the log is written.
    Check(CheckWords),
    /// A scene from the input; a picture of one of its frames is written.
    Picture(PictureWords),
    /// What a command without options does.
    Bare(BareCommand),
}

/// A command with the values of its options, where each has one.
pub fn asked_by(kind: CommandKind, matches: &ArgMatches<'_>) -> Command
    requires { HaveValues (options_by kind) (rows_of (found_of matches.now)) }
    ensures value { result
        ≡ asked_by kind (own_values (options_by kind) (value_in (rows_of (found_of matches.now)))) }
    ensures limits { IsWithinLimits result }
{
    match kind {
        CommandKind::Cull => Command::Cull(CullWords {
            settings: settings_of(matches),
            group: number_of(matches, &GROUP),
        }),
        CommandKind::Live => Command::Live(LiveWords {
            settings: settings_of(matches),
            rounds: number(matches, &ROUNDS),
            watch: number(matches, &WATCH),
        }),
        CommandKind::Demo => Command::Demo(DemoWords {
            settings: settings_of(matches),
            seed: number(matches, &SEED),
            triangles: number(matches, &TRIANGLES),
        }),
        CommandKind::Check => {
            let rounds = number(matches, &ROUNDS);
            let watch = number(matches, &WATCH);
            Command::Check(CheckWords { rounds, watch })
        }
        CommandKind::Picture => Command::Picture(PictureWords {
            settings: cut_of(matches, false, false),
            frame: number(matches, &FRAME),
        }),
        CommandKind::Bare(command) => Command::Bare(command),
    }
}
