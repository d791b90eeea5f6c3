//! The command `ignore_lines` prints the paths of its input that an ignore file does not ignore, as git reads ignore files. With
//! `-v` it prints for each path the file and the line that decide about it, as `git check-ignore -v -n` does.

pub mod walk;

use crate::command::{Command, Fault, only_name, print, push, read_input};
use crate::text_file::{Lines, TextFile, without_dot};
use std::process::ExitCode;
use walk::PathWalk;

pub const COMMAND: Command = Command {
    name: "ignore_lines",
    help: "usage: examples ignore_lines [-i] FILE < PATHS
       examples ignore_lines -v [-i] [-z] FILE.. < PATHS

FILE has patterns, one a line, as a .gitignore has them.
Each line of standard input is the path of a file. Those that FILE does not ignore are written to standard output. With -i ASCII
letters are compared without regard to case, as git does with core.ignoreCase.

With -v each FILE is for the folder in which it is, by its name, and a path that ends in / is that of a folder. What decides about a
path is written before it, as FILE:LINE:TEXT and a tab; a TEXT that begins with ! keeps the path. Without a line that decides it is ::
and a tab. With -z, NUL ends each path, FILE, LINE and TEXT, in the input and the output.

The exit status is 0, or 2 after an error, whose text is written to standard error.",
};

/// Executes the arguments, and returns the exit status.
pub fn run(rt: &HostRuntime, arguments: &[String]) -> Result<ExitCode, Fault> {
    match arguments {
        [option, others @ ..] if option.as_str() == "-v" => print_deciding(rt, others),
        [option, name] if option.as_str() == "-i" => print_paths(rt, name.as_str(), true),
        _ => print_paths(rt, only_name(arguments)?, false),
    }
}

/// Prints the paths that the file does not ignore.
fn print_paths(rt: &HostRuntime, name: &str, ignore_case: bool) -> Result<ExitCode, Fault> {
    let mut file = TextFile::read(rt, name)?;
    // Without a name, the file is for the top directory.
    file.name.clear();
    let mut files = Vec::new(rt.alloc());
    files.push(file)?;
    let mut walk = PathWalk::new(rt.alloc(), files, ignore_case)?;
    let input = read_input(rt)?;
    let mut output = Vec::new(rt.alloc());
    for path in Lines::new(&input, b'\n') {
        let rule = walk.deciding_rule(without_dot(path), false)?;
        if rule.is_none_or(|rule| rule.is_negated) {
            push(&mut output, &[path, b"\n"])?;
        }
    }
    print(rt, &output)
}

/// Prints which line of the named files decides about each path. Returns an error if the arguments after `-v` name no file.
fn print_deciding(rt: &HostRuntime, arguments: &[String]) -> Result<ExitCode, Fault> {
    let first_name = arguments
        .iter()
        .position(|it| !matches!(it.as_str(), "-z" | "-i"));
    let Some(count) = first_name else {
        return Err(Fault::Usage);
    };
    let options = &arguments[..count];
    let ignores_case = options.iter().any(|it| it.as_str() == "-i");
    let ends_in_nul = options.iter().any(|it| it.as_str() == "-z");
    let mut files = Vec::new(rt.alloc());
    for name in &arguments[count..] {
        files.push(TextFile::read(rt, name.as_str())?)?;
    }
    let mut walk = PathWalk::new(rt.alloc(), files, ignores_case)?;
    let ends = if ends_in_nul { *b"\0\0\0" } else { *b":\t\n" };
    print_lines(rt, &mut walk, ends)
}

/// Prints what decides about each path of standard input, and the path. Given are the bytes after the name of a file and the
/// number of a line, after the text of a line, and after a path, also in the input.
fn print_lines(
    rt: &HostRuntime,
    walk: &mut PathWalk,
    [colon, tab, end]: [u8; 3],
) -> Result<ExitCode, Fault> {
    let input = read_input(rt)?;
    let mut output = Vec::new(rt.alloc());
    for given in Lines::new(&input, end) {
        let path = given.strip_suffix(b"/").unwrap_or(given);
        match walk.deciding_rule(without_dot(path), path.len() < given.len())? {
            Some(rule) => {
                let number = rule.line.to_string(rt.alloc())?;
                let (file, text) = walk.file_and_text(rule);
                let parts = [file.as_bytes(), &[colon], number.as_bytes(), &[colon], text];
                push(&mut output, &parts)?;
            }
            None => push(&mut output, &[&[colon], &[colon]])?,
        }
        push(&mut output, &[&[tab], given, &[end]])?;
    }
    print(rt, &output)
}
