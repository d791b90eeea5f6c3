//! Measures calls of sets, matchers and searchers of globset, and the time to read globs and to make sets. The program
//! `plain_baseline` of `bench` does the same over the Rust crate, and `bench/plain` compares the two.
//!
//! `replay --measure CALLS ROUNDS MICROSECONDS`: standard input has the globs, a glob in each line, an empty line, and the paths.
//! A line before the empty line that begins with `-` is an option of all globs after it. CALLS are names of [`Job::run`] with
//! commas between them. Each is measured in ROUNDS rounds over the paths, and ends after MICROSECONDS of processor time.
//!
//! For each call it writes a line of columns between tabs: its name and the columns of [`Measured::write`](measured::Measured).
//! With 0 rounds it measures nothing, and writes how many matches there are for all paths.

mod asked;
mod calls;
mod input;
mod made;
mod measured;

use anyhow::{Result, anyhow};
use calls::Job;
use input::Input;
use measured::Limits;
use std::process::ExitCode;
use std::{env, io};

/// Measures the calls that the arguments after `--measure` name. The status is 2 if the arguments or the input are wrong, or a
/// call fails.
pub fn measure_calls(rt: &HostRuntime) -> ExitCode {
    match run(rt) {
        Ok(()) => ExitCode::SUCCESS,
        Err(error) => {
            let _ = eprintln!(rt; "replay: {error}");
            ExitCode::from(2)
        }
    }
}

fn run(rt: &HostRuntime) -> Result<()> {
    let mut arguments = env::args(rt)?.skip(2);
    let (Some(calls), Some(rounds), Some(micros)) = (
        arguments.next(),
        arguments.next(),
        arguments.next(),
    ) else {
        return Err(anyhow!("replay --measure CALLS ROUNDS MICROSECONDS"));
    };
    let limits = Limits::parse(rounds.as_str(), micros.as_str())?;
    measure(rt, calls.as_str(), limits)
}

/// Measures these calls on the globs and the paths of standard input.
fn measure(rt: &HostRuntime, calls: &str, limits: Limits) -> Result<()> {
    let text = io::read_to_string(rt.alloc(), rt.reader())?;
    let input = Input::parse(rt.alloc(), text.as_str())?;
    let job = Job {
        rt,
        globs: &input.globs,
        paths: &input.paths,
        limits,
    };
    for call in calls.split(',') {
        job.run(call)?;
    }
    Ok(())
}
