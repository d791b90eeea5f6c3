//! Replays stored rows about globs, paths, directories, sets, JSON values and globs compared: each has a call of the crate globset
//! or glob_relations and its result, as readable text.
//!
//! A row is a line whose columns are separated by tabs. The first is its kind, the next columns are the arguments of the call,
//! and the last are its expected result. An empty line ends a case, and a line that begins with `#` is a comment. The
//! command-line arguments name files of rows, and the comments at the head of each file describe its rows.
//!
//! With `--measure` as its first argument it [measures calls](measure).
#![tactic(auto)]

mod case;
mod column;
mod files;
mod measure;
mod relations;
mod report;
mod row;

use files::replay_files;
use measure::measure_calls;
use std::process::ExitCode;
use std::{env, io};

fn main(rt: HostRuntime) -> io::Result<ExitCode> {
    let first = env::args(&rt)?.skip(1).next();
    if first.is_some_and(|word| word.as_str() == "--measure") {
        Ok(measure_calls(&rt))
    } else {
        replay_files(&rt)
    }
}
