//! What some command lines name, and what is said of those that are refused.
use command_words::{
    BareCommand, Command, Refusal, Settings, VERSION, command_of, named_or_refused, told_table,
};
use std::alloc::Global;
use std::process::Abort;
use std::test::*;

const FLAGS: [[&str; 2]; 2] = [["--early", "--early"], ["--steal", "--early"]];

fn words(alloc: Global, given: &[&str]) -> Result<Vec<String>, Fail> {
    let mut words = Vec::new(alloc);
    for word in given {
        words.push(String::from_str(alloc, word)?)?;
    }
    Ok(words)
}

// What a command line names.
fn command_for(rt: &impl Abort, alloc: Global, given: &[&str]) -> Result<Command, Fail> {
    let words = words(alloc, given)?;
    Ok(
        command_of(alloc, &words)
            .ok()
            .expect(rt, "words are refused"),
    )
}

// The settings of a command, its name, and the two numbers of its own, of `picture` 0 in place of the second; `check`
// and a bare command have no settings.
fn parts(command: Command) -> (Option<Settings>, &'static str, Option<(u32, u32)>) {
    match command {
        Command::Cull(words) => (Some(words.settings), "cull", None),
        Command::Live(words) => (
            Some(words.settings),
            "live",
            Some((words.rounds, words.watch)),
        ),
        Command::Demo(words) => (
            Some(words.settings),
            "demo",
            Some((words.seed, words.triangles)),
        ),
        Command::Check(words) => (None, "check", Some((words.rounds, words.watch))),
        Command::Picture(words) => (Some(words.settings), "picture", Some((words.frame, 0))),
        Command::Bare(_) => (None, "a command without options", None),
    }
}

// The workers, columns, rows and batch that a command line names, the command, and the two numbers of its own.
fn asked(
    rt: &impl Abort,
    alloc: Global,
    given: &[&str],
) -> Result<([u32; 4], &'static str, Option<(u32, u32)>), Fail> {
    let (settings, command, own) = parts(command_for(rt, alloc, given)?);
    let settings = settings.ok_or("a command with settings")?;
    let (columns, rows) = (settings.cut.columns(), settings.cut.rows());
    let sharing = [settings.workers, columns, rows, settings.batch];
    Ok((sharing, command, own))
}

#[test]
fn defaults_stand_where_no_option_is_given(rt: HostRuntime) -> Result<(), Fail> {
    let alloc = rt.alloc();
    for (command, own) in [
        ("cull", None),
        ("live", Some((1, 1))),
        ("demo", Some((1, 20000))),
        ("picture", Some((0, 0))),
    ] {
        assert_eq!(rt;
            asked(&rt, alloc, &["maskcull", command])?,
            ([1, 1, 1, 64], command, own)
        );
    }
    Ok(())
}

#[test]
fn live_asks_for_rounds_and_watched_objects(rt: HostRuntime) -> Result<(), Fail> {
    let alloc = rt.alloc();
    for (given, workers, own) in [
        (["--rounds=8", "--watch", "8", "--workers", "2"], 2, (8, 8)),
        (
            ["--watch=2", "--workers", "64", "--rounds", "5"],
            64,
            (5, 2),
        ),
    ] {
        let [first, second, third, fourth, fifth] = given;
        let given = ["maskcull", "live", first, second, third, fourth, fifth];
        assert_eq!(rt;
            asked(&rt, alloc, &given)?,
            ([workers, 1, 1, 64], "live", Some(own))
        );
    }
    Ok(())
}

// Command lines with flags, their workers, and whether they have `--early` and `--steal`.
const FLAGGED: [(&[&str], (u32, bool, bool)); 8] = [
    (&["maskcull", "cull", "--workers", "3"], (3, false, false)),
    (&["maskcull", "cull", "--early"], (1, true, false)),
    (&["maskcull", "cull", "--steal"], (1, false, true)),
    (
        &["maskcull", "live", "--early", "--workers", "3"],
        (3, true, false),
    ),
    (
        &["maskcull", "live", "--steal", "--workers", "3", "--early"],
        (3, true, true),
    ),
    (
        &["maskcull", "demo", "--seed", "5", "--early", "--workers=3"],
        (3, true, false),
    ),
    (
        &["maskcull", "demo", "--seed", "5", "--workers=3", "--steal"],
        (3, false, true),
    ),
    (
        &["maskcull", "cull", "--workers", "3", "--early"],
        (3, true, false),
    ),
];

#[test]
fn flags_stand_anywhere_among_the_options(rt: HostRuntime) -> Result<(), Fail> {
    let alloc = rt.alloc();
    for (given, wanted) in FLAGGED {
        let (settings, _, _) = parts(command_for(&rt, alloc, given)?);
        let settings = settings.ok_or("a command with settings")?;
        assert_eq!(rt; (settings.workers, settings.early, settings.steal), wanted);
    }
    Ok(())
}

#[test]
fn options_come_in_any_order_and_in_both_spellings(rt: HostRuntime) -> Result<(), Fail> {
    let alloc = rt.alloc();
    let given = [
        "maskcull",
        "demo",
        "--triangles=0",
        "--bins-y",
        "3",
        "--seed",
        "4294967295",
        "--batch=5",
        "--workers",
        "9",
    ];
    assert_eq!(rt;
        asked(&rt, alloc, &given)?,
        ([9, 1, 3, 5], "demo", Some((4294967295, 0)))
    );
    Ok(())
}

// What is said of words that are refused.
fn said(rt: &impl Abort, alloc: Global, given: &[&str]) -> Result<String, Fail> {
    let words = words(alloc, given)?;
    let refusal = command_of(alloc, &words).err();
    match refusal.expect(rt, "words are taken") {
        Refusal::Words(Some(text)) => Ok(text),
        _ => Ok(String::from_str(alloc, "nothing")?),
    }
}

#[test]
fn ranges_and_defaults_stand_on_the_help_page(rt: HostRuntime) -> Result<(), Fail> {
    let alloc = rt.alloc();
    let page = said(&rt, alloc, &["maskcull", "demo", "--help"])?;
    for wanted in [
        "How many pieces a batch has at least, for a frame that threads share, 1 to 4096 [default: 64]",
        "How many triangles the scene has, 0 to 65536 [default: 20000]",
        "The number that makes the scene, 0 to 4294967295 [default: 1]",
    ] {
        assert!(rt; page.contains(wanted), "no {wanted}");
    }
    assert_eq!(rt;
        said(&rt, alloc, &["maskcull", "--version"])?,
        format!(in alloc; "maskcull {VERSION}\n")?
    );
    Ok(())
}

// With each of these options the words of a command are refused.
fn assert_refused(
    rt: &impl Abort,
    alloc: Global,
    command: &str,
    options: &[[&str; 2]],
) -> Result<(), Fail> {
    for option in options {
        let [first, second] = *option;
        let given = words(alloc, &["maskcull", command, first, second])?;
        assert!(rt; command_of(alloc, &given).is_err());
    }
    Ok(())
}

#[test]
fn upgrade_has_no_options(rt: HostRuntime) -> Result<(), Fail> {
    let alloc = rt.alloc();
    let Command::Bare(BareCommand::Upgrade) = command_for(&rt, alloc, &["maskcull", "upgrade"])?
    else {
        return Err(Fail::from("the command that upgrades"));
    };
    let options = [["--workers", "2"], ["--batch", "7"]];
    assert_refused(&rt, alloc, "upgrade", &options)?;
    assert_refused(&rt, alloc, "upgrade", &FLAGS)
}

#[test]
fn check_has_two_options(rt: HostRuntime) -> Result<(), Fail> {
    let alloc = rt.alloc();
    for (given, own) in [
        (["maskcull", "check"].as_slice(), (1, 1)),
        (&["maskcull", "check", "--rounds=8"], (8, 1)),
        (
            &["maskcull", "check", "--watch", "3", "--rounds", "2"],
            (2, 3),
        ),
    ] {
        let (settings, command, asked) = parts(command_for(&rt, alloc, given)?);
        assert!(rt; settings.is_none());
        assert_eq!(rt; (command, asked), ("check", Some(own)));
    }
    let options = [["--workers", "2"], ["--rounds", "9"], ["--watch", "0"]];
    assert_refused(&rt, alloc, "check", &options)?;
    assert_refused(&rt, alloc, "check", &FLAGS)
}

#[test]
fn cull_asks_for_groups_if_it_is_to(rt: HostRuntime) -> Result<(), Fail> {
    let alloc = rt.alloc();
    for (given, wanted) in [
        (["maskcull", "cull"].as_slice(), None),
        (&["maskcull", "cull", "--group", "1"], Some(1)),
        (&["maskcull", "cull", "--early", "--group=64"], Some(64)),
    ] {
        let Command::Cull(words) = command_for(&rt, alloc, given)? else {
            return Err(Fail::from("the command that culls"));
        };
        assert_eq!(rt; words.group, wanted);
    }
    Ok(())
}

#[test]
fn picture_asks_for_a_frame(rt: HostRuntime) -> Result<(), Fail> {
    let alloc = rt.alloc();
    for (given, sharing, frame) in [
        (["--frame", "255", "--workers=3"], [3, 1, 1, 64], 255),
        (["--batch=1", "--frame", "7"], [1, 1, 1, 1], 7),
        (["--frame=0", "--bins-x", "8"], [1, 8, 1, 64], 0),
    ] {
        let [first, second, third] = given;
        let given = ["maskcull", "picture", first, second, third];
        assert_eq!(rt;
            asked(&rt, alloc, &given)?,
            (sharing, "picture", Some((frame, 0)))
        );
    }
    let (settings, _, _) = parts(command_for(&rt, alloc, &["maskcull", "picture"])?);
    let settings = settings.ok_or("a command with settings")?;
    assert_eq!(rt; (settings.early, settings.steal), (false, false));
    let page = said(&rt, alloc, &["maskcull", "picture", "--help"])?;
    assert!(rt; page.contains("Which frame is drawn, 0 to 255 [default: 0]"));
    Ok(())
}

#[test]
fn the_laws_on_command_lines_are_called(rt: HostRuntime) {
    told_table();
    named_or_refused();
}
