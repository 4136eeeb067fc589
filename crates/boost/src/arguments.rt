// The program's command line.
ghost use Rattle.std.specs.Prelude.{◌≡◌, ◌↔◌, codes, false, true, map, IfOk, Some, IfSome};
ghost use Rattle.std.specs.Prelude.{IsSomeAnd, IsTrue, OnOk, ◌++◌, string_bytes};
ghost use Rattle.std.specs.Result.{IsOkAnd};
ghost use Rattle.std.specs.Option.{option_map};
ghost use Rattle.clap.specs.declared.builder.command.Command.TheViews.{out-Command};
ghost use Rattle.clap.specs.Words.{app_of, found_of, first_of, rows_of, rule_of};
ghost use Rattle.clap.specs.Words.{subcommand_rows_of, with_subcommand};
ghost use Rattle.boost.specs.Arguments.{path_rule, area_rule, flag_rule, folder_rule};
ghost use Rattle.boost.specs.Arguments.{idle_rule, disk_app, script_app, serve_app};
ghost use Rattle.boost.specs.Arguments.{listen_app, format_app, lint_app, copy_app};
ghost use Rattle.boost.specs.Arguments.{flagged_app, IsGiven, bare_app, program_app};
ghost use Rattle.boost.specs.Arguments.{running_app, looking_app, changing_app};
ghost use Rattle.boost.specs.Arguments.{ArePaths, Asks, AsksTask, IsIdle};
ghost use Rattle.boost.specs.Sizes.{IsSizeOf};
ghost use Rattle.boost.specs.Arguments.{IsVersion, version_rule, IsArea, copy_area_rule};
ghost use Rattle.boost.specs.Arguments.{without_rule, rename_rule, edits_asked, renames};
ghost use Rattle.boost.specs.Arguments.{values_of};
ghost use Rattle.recovery.specs.declared.editing.Edit.{Edit};
ghost use Rattle.boost.specs.Arguments.{IsAskedBy};

use crate::sizes::size;
use calls::Name;
use clap::error::ErrorKind;
use clap::{Arg, ArgAction, ArgMatches, Error, value_parser};
use recovery::Edit;
use std::alloc::{AllocError, Global};
use std::num::ParseIntError;

/// The version of the program, as `boost --version` prints it.
pub const VERSION: &str = "1.0.0";

// What help calls the two values of a renaming.
const RENAMED: &[&str] = &["NAME", "OTHER"];

// What is said of a size of areas that is none.
const NO_SIZE: &str = "invalid value for '--area <N>': it is a number of bytes, as 65536 or 64K";

/// What the program is asked to do, with the paths as they were written.
#[derive(Drop, Debug)]
pub enum Invocation {
    /// A task of one thread on one disk.
    Run(Task),
    /// Copies the store in a file to another file, with two areas of so many bytes, or where no
    /// number is given with two as large as those of the old file. `group` asks that the group of
    /// the new file's folder may read and write it. The edits are what is left out, in the order of
    /// the command line, and then what is renamed, in the same.
    Copy {
        old: String,
        new: String,
        area: Option<u64>,
        group: bool,
        edits: Vec<Edit>,
    },
    /// Tells the lines of a script that are not understood. No disk is opened.
    Lint {
        script: String,
    },
    /// Runs the clients of a script on the store in the file, each in a thread of its own. `why`
    /// asks to be told what ended keeping early.
    Serve {
        disk: String,
        script: String,
        why: bool,
    },
    /// Keeps the store in the file open, and serves clients: those of the door of a folder, where
    /// one is given, else those of its own input and output. A client that is silent for `idle`
    /// seconds, from 1 on, has its transaction undone; none where that is not given. `shell` asks
    /// that its own input and output are a person's, who is shown a prompt and help, and `log` that
    /// it is told what happens.
    Listen {
        disk: String,
        folder: Option<String>,
        idle: Option<u64>,
        shell: bool,
        log: bool,
    },
}

/// What the program does on one thread with one disk, with the paths as they were written.
#[derive(Drop, Debug)]
pub enum Task {
    /// Makes the file an empty store with two areas of so many bytes, in the format of the number
    /// `version`, which is 1 where none is written. `reserve` asks for the file's space at once,
    /// `group` that the group of its folder may read and write it, and `force` that it is made also
    /// where a file with bytes is there.
    Format {
        disk: String,
        area: u64,
        version: u8,
        reserve: bool,
        group: bool,
        force: bool,
    },
    /// Runs a script on the store in the file.
    Play {
        disk: String,
        script: String,
    },
    /// Prints the content of the store in the file. `read_only` asks that nothing is written.
    Show {
        disk: String,
        read_only: bool,
    },
    /// Counts what the store in the file holds, and writes nothing.
    Check {
        disk: String,
    },
    /// Tells what room the store in the file takes and has, and what it counts, and writes nothing:
    /// in lines, or where `json` is set as an object.
    Stat {
        disk: String,
        json: bool,
    },
    /// Brings the store in the file to format 2, in place.
    Upgrade {
        disk: String,
    },
    /// Runs the stored run.
    Demo,
}

// A path that has to stand on the command line.
fn path<'a>(alloc: Global, id: &'a str, help: &'a str) -> Arg<'a>
    ensures rule { rule_of result ≡ path_rule id.entry.now }
    ensures alone { result.global ≡ false }
{
    Arg::new(alloc, id)
        .required(true)
        .action(ArgAction::Set)
        .help(help)
}

// The size of an area.
fn area<'a>(alloc: Global) -> Arg<'a>
    ensures rule { rule_of result ≡ area_rule }
    ensures alone { result.global ≡ false }
{
    Arg::new(alloc, "area")
        .long("area")
        .value_name("N")
        .required(true)
        .action(ArgAction::Set)
        .help("The bytes of each of its two areas, from 64K to 1G, in format 2 to 64G")
}

// The size of an area of a copy, which may be left out.
fn area_of_copy<'a>(alloc: Global) -> Arg<'a>
    ensures rule { rule_of result ≡ copy_area_rule }
    ensures alone { result.global ≡ false }
{
    Arg::new(alloc, "area")
        .long("area")
        .value_name("N")
        .action(ArgAction::Set)
        .help("The bytes of each of its two areas, from 64K to 64G; as many as OLD has without it")
}

// The number of a format, which may be left out.
fn version<'a>(alloc: Global) -> Arg<'a>
    ensures rule { rule_of result ≡ version_rule }
    ensures alone { result.global ≡ false }
{
    Arg::new(alloc, "format")
        .long("format")
        .value_name("V")
        .action(ArgAction::Set)
        .value_parser(value_parser!(u8))
        .help("The format, 1 or 2; 1 without it")
}

// A flag, which is off where it does not stand on the command line.
fn flag<'a>(alloc: Global, name: &'a str, help: &'a str) -> Arg<'a>
    ensures rule { rule_of result ≡ flag_rule name.entry.now }
    ensures alone { result.global ≡ false }
{
    Arg::new(alloc, name)
        .long(name)
        .action(ArgAction::SetTrue)
        .help(help)
}

// The flag of a new file that a group is to have.
fn group<'a>(alloc: Global) -> Arg<'a>
    ensures rule { rule_of result ≡ flag_rule (codes "group") }
    ensures alone { result.global ≡ false }
{
    flag(
        alloc,
        "group",
        "Let the group of its folder read and write the file; without it its owner alone may",
    )
}

// The folder of the door, which may be left out.
fn folder<'a>(alloc: Global) -> Arg<'a>
    ensures rule { rule_of result ≡ folder_rule }
    ensures alone { result.global ≡ false }
{
    Arg::new(alloc, "FOLDER").action(ArgAction::Set).help(
        "The folder whose door clients come by; without one they share input and output",
    )
}

// After how many seconds a silent client loses its transaction, which may be left out.
fn idle<'a>(alloc: Global) -> Arg<'a>
    ensures rule { rule_of result ≡ idle_rule }
    ensures alone { result.global ≡ false }
{
    Arg::new(alloc, "idle")
        .long("idle")
        .value_name("SECONDS")
        .action(ArgAction::Set)
        .value_parser(value_parser!(u64).range(1..))
        .help("Undo the transaction of a client that is silent for so long; never without it")
}

// A command on a disk alone.
fn disk_command<'a>(
    alloc: Global,
    name: &'a str,
    about: &'a str,
) -> Result<clap::Command<'a>, AllocError>
    ensures { IfOk result (λ c. (app_of c ≡ disk_app name.entry.now) ×
        ((out-Command c).has_globals ≡ false)) }
{
    clap::Command::new(alloc, name)
        .about(about)
        .arg(path(alloc, "DISK", "The file that holds the store"))
}

// The command that formats a disk.
fn format_command<'a>(alloc: Global, about: &'a str) -> Result<clap::Command<'a>, AllocError>
    ensures { IfOk result (λ c. (app_of c ≡ format_app) × ((out-Command c).has_globals ≡ false)) }
{
    let reserve = "Take the file's space at once, by writing zeros over all of it";
    let force = "Make it also where a file with bytes is there, which are lost";
    disk_command(alloc, "format", about)?
        .arg(area(alloc))?
        .arg(version(alloc))?
        .arg(flag(alloc, "reserve", reserve))?
        .arg(group(alloc))?
        .arg(flag(alloc, "force", force))
}

// A command on a disk with a flag.
fn flagged_command<'a>(
    alloc: Global,
    name: &'a str,
    about: &'a str,
    flag_name: &'a str,
    help: &'a str,
) -> Result<clap::Command<'a>, AllocError>
    ensures { IfOk result (λ c. (app_of c ≡ flagged_app name.entry.now flag_name.entry.now) ×
        ((out-Command c).has_globals ≡ false)) }
{
    disk_command(alloc, name, about)?.arg(flag(alloc, flag_name, help))
}

// A command on a disk that runs a script.
fn script_command<'a>(
    alloc: Global,
    name: &'a str,
    about: &'a str,
) -> Result<clap::Command<'a>, AllocError>
    ensures { IfOk result (λ c. (app_of c ≡ script_app name.entry.now) ×
        ((out-Command c).has_globals ≡ false)) }
{
    disk_command(alloc, name, about)?.arg(path(
        alloc,
        "SCRIPT",
        "The file that holds the lines to run",
    ))
}

// The command that serves a script.
fn serve_command<'a>(alloc: Global, about: &'a str) -> Result<clap::Command<'a>, AllocError>
    ensures { IfOk result (λ c. (app_of c ≡ serve_app) × ((out-Command c).has_globals ≡ false)) }
{
    let why = "Tell what ended keeping early, where tickets were lost";
    script_command(alloc, "serve", about)?.arg(flag(alloc, "why", why))
}

// The command that keeps a store open.
fn listen_command<'a>(alloc: Global, about: &'a str) -> Result<clap::Command<'a>, AllocError>
    ensures { IfOk result (λ c. (app_of c ≡ listen_app) × ((out-Command c).has_globals ≡ false)) }
{
    let shell = "Speak with a person: show a prompt, take lines without a client, know help";
    let log = "Tell on standard error when it is open, who comes and goes, and each checkpoint";
    disk_command(alloc, "listen", about)?
        .arg(folder(alloc))?
        .arg(idle(alloc))?
        .arg(flag(alloc, "shell", shell))?
        .arg(flag(alloc, "log", log))
}

// A collection that a copy leaves out, as often as it is written.
fn without<'a>(alloc: Global) -> Arg<'a>
    ensures rule { rule_of result ≡ without_rule }
    ensures alone { result.global ≡ false }
{
    Arg::new(alloc, "without")
        .long("without")
        .value_name("NAME")
        .action(ArgAction::Append)
        .help("Leave this collection out of the copy; may be said several times")
}

// A collection that has another name in a copy, as often as it is written.
fn rename<'a>(alloc: Global) -> Arg<'a>
    ensures rule { rule_of result ≡ rename_rule }
    ensures alone { result.global ≡ false }
{
    Arg::new(alloc, "rename")
        .long("rename")
        .value_names(RENAMED)
        .action(ArgAction::Append)
        .help("Name it OTHER in the copy, after what is left out; may be said several times")
}

// The command that copies a store.
fn copy_command<'a>(alloc: Global, about: &'a str) -> Result<clap::Command<'a>, AllocError>
    ensures { IfOk result (λ c. (app_of c ≡ copy_app) × ((out-Command c).has_globals ≡ false)) }
{
    let new = "The file that gets the copy; what it held is lost";
    clap::Command::new(alloc, "copy")
        .about(about)
        .arg(path(
            alloc,
            "OLD",
            "The file that holds the store, which is only read",
        ))?
        .arg(path(alloc, "NEW", new))?
        .arg(area_of_copy(alloc))?
        .arg(group(alloc))?
        .arg(without(alloc))?
        .arg(rename(alloc))
}

// The command that reads a script alone.
fn lint_command<'a>(alloc: Global, about: &'a str) -> Result<clap::Command<'a>, AllocError>
    ensures { IfOk result (λ c. (app_of c ≡ lint_app) × ((out-Command c).has_globals ≡ false)) }
{
    clap::Command::new(alloc, "lint")
        .about(about)
        .arg(path(alloc, "SCRIPT", "The file that holds the lines"))
}

// The program with one command more, where that could be made.
fn with<'a>(
    program: clap::Command<'a>,
    made: Result<clap::Command<'a>, AllocError>,
) -> Result<clap::Command<'a>, AllocError>
    ensures { IfOk result (λ c. IsOkAnd made.entry (λ more. (out-Command more).has_globals ≡ false →
        app_of c ≡ with_subcommand (app_of program.entry) (app_of more).top)) }
{
    program.subcommand(made?)
}

// The program without its commands.
fn bare_program<'a>(alloc: Global) -> clap::Command<'a>
    ensures { app_of result ≡ bare_app }
{
    clap::Command::new(alloc, "boost")
        .about("A store of named collections that is kept through crashes")
        .version(VERSION)
        .subcommand_required(true)
}

// The program with the commands that make a store and run its clients.
fn add_running<'a>(
    alloc: Global,
    program: clap::Command<'a>,
) -> Result<clap::Command<'a>, AllocError>
    ensures { IfOk result (λ c. app_of c ≡ running_app (app_of program.entry)) }
{
    let format = format_command(alloc, "Make an empty store in a file");
    let program = with(program, format)?;
    let play = script_command(alloc, "play", "Run the lines of a script one after another");
    let program = with(program, play)?;
    let about = "Run the clients of a script, each in a thread of its own";
    let program = with(program, serve_command(alloc, about))?;
    let about = "Keep the store open, and serve the clients that come";
    with(program, listen_command(alloc, about))
}

// The program with the commands that tell of a store.
fn add_looking<'a>(
    alloc: Global,
    program: clap::Command<'a>,
) -> Result<clap::Command<'a>, AllocError>
    ensures { IfOk result (λ c. app_of c ≡ looking_app (app_of program.entry)) }
{
    let (show, read_only) = (
        "Print what the store holds",
        "Undo in memory alone what is unfinished, and write nothing",
    );
    let program = with(
        program,
        flagged_command(alloc, "show", show, "read-only", read_only),
    )?;
    let program = with(
        program,
        disk_command(alloc, "check", "Count what the store holds"),
    )?;
    let (stat, json) = (
        "Tell what room the store takes and has",
        "Print one JSON object in place of lines",
    );
    with(program, flagged_command(alloc, "stat", stat, "json", json))
}

// The program with the commands that bring a store elsewhere, and the one that reads a script.
fn add_changing<'a>(
    alloc: Global,
    program: clap::Command<'a>,
) -> Result<clap::Command<'a>, AllocError>
    ensures { IfOk result (λ c. app_of c ≡ changing_app (app_of program.entry)) }
{
    let about = "Copy the store to another file, as with larger areas";
    let program = with(program, copy_command(alloc, about))?;
    let about = "Bring the store to format 2, in place";
    let program = with(program, disk_command(alloc, "upgrade", about))?;
    let about = "Tell the lines of a script that are not understood";
    with(program, lint_command(alloc, about))
}

// The command lines that are understood.
fn program<'a>(alloc: Global) -> Result<clap::Command<'a>, AllocError>
    ensures { IfOk result (λ c. app_of c ≡ program_app) }
{
    let program = add_running(alloc, bare_program(alloc))?;
    let program = add_looking(alloc, program)?;
    let program = add_changing(alloc, program)?;
    let demo = clap::Command::new(alloc, "demo").about("Run a stored script on a disk in memory");
    with(program, Ok(demo))
}

fn text(alloc: Global, found: &ArgMatches<'_>, id: &str) -> Result<Option<String>, AllocError>
    ensures { IfOk result (λ text. first_of id.now (rows_of (found_of found.now)) ≡
        option_map string_bytes text) }
{
    match found.get_str(id) {
        Some(text) => Ok(Some(String::from_str(alloc, text)?)),
        None => Ok(None),
    }
}

// The size of an area.
fn area_asked(found: &ArgMatches<'_>) -> Option<u64>
    ensures { IfSome result (λ n. IsSomeAnd (first_of (codes "area") (rows_of (found_of found.now)))
        (IsSizeOf n)) }
{
    match found.get_str("area") {
        Some(text) => size(text),
        None => None,
    }
}

// The size of an area of a copy, if that is given.
fn copy_area_asked(found: &ArgMatches<'_>) -> Option<Option<u64>>
    ensures { IfSome result (λ area. IsArea area (rows_of (found_of found.now))) }
{
    match found.get_str("area") {
        Some(text) => Some(Some(size(text)?)),
        None => Some(None),
    }
}

// Whether a flag was given.
fn is_given(found: &ArgMatches<'_>, id: &str) -> bool
    ensures { IsTrue result ↔ IsGiven id.now (rows_of (found_of found.now)) }
{
    match found.get_str(id) {
        Some(text) => text == "true",
        None => false,
    }
}

// The paths of a disk and of a script.
fn paths(alloc: Global, found: &ArgMatches<'_>) -> Result<Option<(String, String)>, AllocError>
    ensures { IfOk result (λ paths. IfSome paths (λ p.
        ArePaths (string_bytes p.0) (string_bytes p.1) (rows_of (found_of found.now)))) }
{
    let Some(disk) = text(alloc, found, "DISK")? else {
        return Ok(None);
    };
    match text(alloc, found, "SCRIPT")? {
        Some(script) => Ok(Some((disk, script))),
        None => Ok(None),
    }
}

// What serving a script asks for.
fn serve_asked(alloc: Global, found: &ArgMatches<'_>) -> Result<Option<Invocation>, AllocError>
    ensures { IfOk result (λ asked. IfSome asked
        (λ a. Asks a (codes "serve", rows_of (found_of found.now)))) }
{
    let Some((disk, script)) = paths(alloc, found)? else {
        return Ok(None);
    };
    let why = is_given(found, "why");
    Ok(Some(Invocation::Serve { disk, script, why }))
}

// What keeping a store open asks for.
fn listen_asked(alloc: Global, found: &ArgMatches<'_>) -> Result<Option<Invocation>, AllocError>
    ensures { IfOk result (λ asked. IfSome asked
        (λ a. Asks a (codes "listen", rows_of (found_of found.now)))) }
{
    let Some(disk) = text(alloc, found, "DISK")? else {
        return Ok(None);
    };
    let folder = text(alloc, found, "FOLDER")?;
    let shell = is_given(found, "shell");
    let log = is_given(found, "log");
    match idle_asked(found) {
        Ok(idle) => Ok(Some(Invocation::Listen {
            disk,
            folder,
            idle,
            shell,
            log,
        })),
        Err(_) => Ok(None),
    }
}

// After how many seconds a silent client is to lose its transaction, if that is given.
fn idle_asked(found: &ArgMatches<'_>) -> Result<Option<u64>, ParseIntError>
    ensures { IfOk result (λ idle. IsIdle idle (rows_of (found_of found.now))) }
{
    match found.get_str("idle") {
        Some(text) => Ok(Some(text.parse()?)),
        None => Ok(None),
    }
}

// What copying a store asks for.
fn copy_asked(alloc: Global, found: &ArgMatches<'_>) -> Result<Option<Invocation>, AllocError>
    ensures { IfOk result (λ asked. IfSome asked
        (λ a. Asks a (codes "copy", rows_of (found_of found.now)))) }
{
    let Some(area) = copy_area_asked(found) else {
        return Ok(None);
    };
    let Some(old) = text(alloc, found, "OLD")? else {
        return Ok(None);
    };
    let Some(new) = text(alloc, found, "NEW")? else {
        return Ok(None);
    };
    let group = is_given(found, "group");
    let edits = edits_asked(alloc, found)?;
    Ok(Some(Invocation::Copy {
        old,
        new,
        area,
        group,
        edits,
    }))
}

// What a copy is to leave out, and then what it is to rename.
fn edits_asked(alloc: Global, found: &ArgMatches<'_>) -> Result<Vec<Edit>, AllocError>
    ensures { IfOk result (λ edits. edits.items ≡ edits_asked (rows_of (found_of found.now))) }
{
    let mut edits = Vec::new(alloc);
    push_without(alloc, found, &mut edits)?;
    push_renames(alloc, found, &mut edits)?;
    Ok(edits)
}

// Leaves each collection out that is named.
fn push_without(
    alloc: Global,
    found: &ArgMatches<'_>,
    edits: &mut Vec<Edit>,
) -> Result<(), AllocError>
    ensures { OnOk result (edits.new.items ≡ edits.old.items ++
        map Edit.Without (values_of (codes "without") (rows_of (found_of found.now)))) }
{
    let Some(names) = found.get_strs("without") else {
        return Ok(());
    };
    for name in names {
        edits.push(Edit::Without(name_of(alloc, name)?))?;
    }
    Ok(())
}

// Renames the first of each two collections that are named to the second.
fn push_renames(
    alloc: Global,
    found: &ArgMatches<'_>,
    edits: &mut Vec<Edit>,
) -> Result<(), AllocError>
    ensures { OnOk result (edits.new.items ≡ edits.old.items ++
        renames (values_of (codes "rename") (rows_of (found_of found.now)))) }
{
    let Some(mut left) = found.get_strs("rename") else {
        return Ok(());
    };
    while let [from, to, more @ ..] = left {
        let (from, to) = (name_of(alloc, from)?, name_of(alloc, to)?);
        edits.push(Edit::Rename { from, to })?;
        left = more;
    }
    Ok(())
}

// The name that a text spells.
fn name_of(alloc: Global, text: &str) -> Result<Name, AllocError>
    ensures { IfOk result (λ name. name ≡ text.now) }
{
    Ok(Name::new(String::from_str(alloc, text)?))
}

// What the command of the name asks for.
fn named(
    alloc: Global,
    name: &str,
    found: &ArgMatches<'_>,
) -> Result<Option<Invocation>, AllocError>
    ensures { IfOk result (λ command. IfSome command
        (λ c. Asks c (name.now, rows_of (found_of found.now)))) }
{
    match name {
        "serve" => serve_asked(alloc, found),
        "listen" => listen_asked(alloc, found),
        "copy" => copy_asked(alloc, found),
        "lint" => match text(alloc, found, "SCRIPT")? {
            Some(script) => Ok(Some(Invocation::Lint { script })),
            None => Ok(None),
        },
        _ => match task_of(alloc, name, found)? {
            Some(task) => Ok(Some(Invocation::Run(task))),
            None => Ok(None),
        },
    }
}

// The number of the format that is asked for.
fn version_asked(found: &ArgMatches<'_>) -> Result<u8, ParseIntError>
    ensures { IfOk result (λ version. IsVersion version (rows_of (found_of found.now))) }
{
    match found.get_str("format") {
        Some(text) => Ok(text.parse()?),
        None => Ok(1),
    }
}

// What formatting a disk asks for.
fn format_asked(alloc: Global, found: &ArgMatches<'_>) -> Result<Option<Task>, AllocError>
    ensures { IfOk result (λ asked. IfSome asked
        (λ a. AsksTask a (codes "format", rows_of (found_of found.now)))) }
{
    let Some(area) = area_asked(found) else {
        return Ok(None);
    };
    let Ok(version) = version_asked(found) else {
        return Ok(None);
    };
    let reserve = is_given(found, "reserve");
    let group = is_given(found, "group");
    let force = is_given(found, "force");
    match text(alloc, found, "DISK")? {
        Some(disk) => Ok(Some(Task::Format {
            disk,
            area,
            version,
            reserve,
            group,
            force,
        })),
        None => Ok(None),
    }
}

// What showing a store asks for.
fn show_asked(alloc: Global, found: &ArgMatches<'_>) -> Result<Option<Task>, AllocError>
    ensures { IfOk result (λ asked. IfSome asked
        (λ a. AsksTask a (codes "show", rows_of (found_of found.now)))) }
{
    let read_only = is_given(found, "read-only");
    match text(alloc, found, "DISK")? {
        Some(disk) => Ok(Some(Task::Show { disk, read_only })),
        None => Ok(None),
    }
}

// What telling of a store asks for.
fn stat_asked(alloc: Global, found: &ArgMatches<'_>) -> Result<Option<Task>, AllocError>
    ensures { IfOk result (λ asked. IfSome asked
        (λ a. AsksTask a (codes "stat", rows_of (found_of found.now)))) }
{
    let json = is_given(found, "json");
    match text(alloc, found, "DISK")? {
        Some(disk) => Ok(Some(Task::Stat { disk, json })),
        None => Ok(None),
    }
}

// The task of the command of the name.
fn task_of(alloc: Global, name: &str, found: &ArgMatches<'_>) -> Result<Option<Task>, AllocError>
    ensures { IfOk result (λ task. IfSome task
        (λ t. AsksTask t (name.now, rows_of (found_of found.now)))) }
{
    match name {
        "format" => format_asked(alloc, found),
        "play" => match paths(alloc, found)? {
            Some((disk, script)) => Ok(Some(Task::Play { disk, script })),
            None => Ok(None),
        },
        "show" => show_asked(alloc, found),
        "stat" => stat_asked(alloc, found),
        "check" => match text(alloc, found, "DISK")? {
            Some(disk) => Ok(Some(Task::Check { disk })),
            None => Ok(None),
        },
        "upgrade" => match text(alloc, found, "DISK")? {
            Some(disk) => Ok(Some(Task::Upgrade { disk })),
            None => Ok(None),
        },
        "demo" => Ok(Some(Task::Demo)),
        _ => Ok(None),
    }
}

// What the matches ask for.
fn asked(alloc: Global, matches: ArgMatches<'_>) -> Result<Option<Invocation>, AllocError>
    ensures { IfOk result (λ command. IfSome command
        (λ c. IsSomeAnd (subcommand_rows_of matches.entry) (Asks c))) }
{
    match matches.subcommand() {
        Some((name, found)) => named(alloc, name, found),
        None => Ok(None),
    }
}

// The command that the words ask the program for.
fn answer<'a>(
    alloc: Global,
    program: &mut clap::Command<'a>,
    words: &'a [&'a str],
) -> Result<Invocation, Error>
    ensures { app_of program.old ≡ program_app →
        IfOk result (λ command. IsAskedBy command (map (λ word. word.now) words.entry.now)) }
{
    let matches = program.try_get_matches_from_mut(words)?;
    match asked(alloc, matches)? {
        Some(command) => Ok(command),
        None => Err(program.error(ErrorKind::ValueValidation, NO_SIZE)?),
    }
}

/// The command that the words of a command line ask for. The first word is the program's name.
///
/// Refused with clap's error, which has the text to print: for words that are no command, for want
/// of memory, and where help is asked for.
pub fn command<'a>(alloc: Global, words: &'a [&'a str]) -> Result<Invocation, Error>
    ensures { IfOk result (λ command. IsAskedBy command (map (λ word. word.now) words.entry.now)) }
{
    let mut program = program(alloc)?;
    let command = answer(alloc, &mut program, words);
    drop(program);
    command
}
