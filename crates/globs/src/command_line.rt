//! The command line.

use clap::{Arg, ArgAction, Command};
use std::alloc::{AllocError, Global};

/// What the options of globs say, under the usage of each command.
const READING: &str =
    "A glob matches a whole path. * and ? match / too, but not with -s; ** matches directories.";

/// Returns the program's command line.
pub fn command<'a>(alloc: Global) -> Result<Command<'a>, AllocError> {
    Command::new(alloc, "globs")
        .bin_name("globs")?
        .version("0.4.21")
        .about("Filters paths by globs, explains globs and compares them")
        .subcommand_required(true)
        .arg_required_else_help(true)
        .subcommand(match_command(alloc)?)?
        .subcommand(explain_command(alloc)?)?
        .subcommand(compare_command(alloc)?)
}

fn match_command<'a>(alloc: Global) -> Result<Command<'a>, AllocError> {
    let command = Command::new(alloc, "match")
        .about("Prints the lines of the input that some glob matches")
        .after_help("The status is 0 if a line was printed, 1 if none was, and 2 after an error.")
        .arg(
            words(alloc, "GLOB")
                .help("The globs, of which one has to match")
                .required_unless_present("globs-from")?,
        )?
        .arg(list(alloc, "exclude", 'x', "GLOB").help(
            "No line that this glob matches; may be repeated",
        ))?
        .arg(flag(alloc, "invert", 'v').help("Prints the other lines"))?
        .arg(
            flag(alloc, "count", 'c')
                .help("Prints how many lines, and not the lines")
                .conflicts_with("quiet")?,
        )?
        .arg(flag(alloc, "quiet", 'q').help("Prints nothing, and ends at the first line"))?
        .arg(
            flag(alloc, "indexes", 'n')
                .help("Prints the indexes of the matching globs before each line")
                .conflicts_with("invert")?,
        )?
        .arg(flag(alloc, "null", '0').help("Lines end in NUL, in the input and the output"))?
        .arg(
            Arg::new(alloc, "paths-from")
                .long("paths-from")
                .value_name("FILE")
                .help("Reads FILE and not standard input"),
        )?
        .arg(files(alloc, "globs-from").short('f'))?;
    with_reading(alloc, command)
}

fn explain_command<'a>(alloc: Global) -> Result<Command<'a>, AllocError> {
    let command = Command::new(alloc, "explain")
        .about(
            "Prints how a glob is read and a shortest path that it matches, and for paths how far they match",
        )
        .after_help(
            "The status is 0 if each path matches, 1 if some does not, and 2 after an error.",
        )
        .arg(Arg::new(alloc, "GLOB").required(true).help("The glob"))?
        .arg(words(alloc, "PATH").help("Paths to match"))?;
    with_reading(alloc, command)
}

fn compare_command<'a>(alloc: Global) -> Result<Command<'a>, AllocError> {
    let command = Command::new(alloc, "compare")
        .about(
            "Prints whether two lists of globs match the same relative paths, and else paths that show it",
        )
        .after_help(
            "The status is 0 if the lists are equal, 1 if they differ, and 2 if that is unknown or after an error.",
        )
        .arg(
            list(alloc, "left", 'a', "GLOB")
                .help("A glob of the left list")
                .required_unless_present("a-from")?,
        )?
        .arg(
            list(alloc, "right", 'b', "GLOB")
                .help("A glob of the right list")
                .required_unless_present("b-from")?,
        )?
        .arg(files(alloc, "a-from"))?
        .arg(files(alloc, "b-from"))?
        .arg(flag(alloc, "quiet", 'q').help("Prints nothing"))?;
    with_reading(alloc, command)
}

/// Adds the options that say how globs are read.
fn with_reading<'a>(alloc: Global, command: Command<'a>) -> Result<Command<'a>, AllocError> {
    command
        .before_help(READING)
        .arg(reading(alloc, "ignore-case", 'i').help("ASCII letters match in both cases"))?
        .arg(reading(alloc, "separator", 's').help("* and ? do not match /, as in a shell"))?
        .arg(reading(alloc, "empty-alternates", 'e').help("{,a} may match nothing"))?
        .arg(reading(alloc, "unclosed-class", 'u').help("A [ without ] is a plain character"))?
        .arg(
            Arg::new(alloc, "no-escape")
                .long("no-escape")
                .action(ArgAction::SetTrue)
                .help("A \\ is a plain character")
                .help_heading("Globs"),
        )
}

/// Returns an option that says how globs are read.
fn reading<'a>(alloc: Global, name: &'a str, short: char) -> Arg<'a> {
    flag(alloc, name, short).help_heading("Globs")
}

/// Returns an option without a value.
fn flag<'a>(alloc: Global, name: &'a str, short: char) -> Arg<'a> {
    Arg::new(alloc, name)
        .short(short)
        .long(name)
        .action(ArgAction::SetTrue)
}

/// Returns an option with a value, which may be repeated.
fn list<'a>(alloc: Global, name: &'a str, short: char, value: &'a str) -> Arg<'a> {
    Arg::new(alloc, name)
        .short(short)
        .long(name)
        .value_name(value)
        .action(ArgAction::Append)
}

/// Returns an option that names a file of globs, which may be repeated.
fn files<'a>(alloc: Global, name: &'a str) -> Arg<'a> {
    Arg::new(alloc, name)
        .long(name)
        .value_name("FILE")
        .action(ArgAction::Append)
        .help("Globs from FILE, one a line; # starts a comment")
}

/// Returns an argument without a name, which may be repeated.
fn words<'a>(alloc: Global, name: &'a str) -> Arg<'a> {
    Arg::new(alloc, name)
        .num_args(0..)
        .action(ArgAction::Append)
}
