//! Files of rows.

ghost use Rattle.std.specs.Prelude.{◌<◌, length};
ghost use Rattle.std.specs.List.{All};

use crate::report::{FailedRow, Report, replay};
use std::process::ExitCode;
use std::{env, fs, io};

/// Replays the rows of the files that the command-line arguments name.
///
/// For each file this writes the numbers of rows that passed and that failed, after each failed row with its file, its line and
/// the actual result. A row that cannot be read has failed. The last line has the totals. The status is 0 where no row failed,
/// and otherwise 1.
pub fn replay_files(rt: &HostRuntime) -> io::Result<ExitCode> {
    let mut passed = 0usize;
    let mut failed = 0usize;
    for file in env::args(rt)?.skip(1) {
        let text = fs::read_to_string(rt, file.as_str())?;
        let report = replay_text(rt, file.as_str(), text.as_str())?;
        passed = passed.saturating_add(report.passed);
        failed = failed.saturating_add(report.failures.len());
    }
    println!(rt; "all: {passed} passed, {failed} failed")?;
    if failed == 0 {
        Ok(ExitCode::SUCCESS)
    } else {
        Ok(ExitCode::FAILURE)
    }
}

/// Replays the rows of a file with this text, and writes those that failed and how many passed and failed.
fn replay_text(rt: &HostRuntime, file: &str, text: &str) -> io::Result<Report> {
    let lines: Vec<&str> = text.lines().collect(rt.alloc())?;
    let report = replay(rt.alloc(), &lines)?;
    write_failures(rt, file, &lines, &report.failures)?;
    let failed = report.failures.len();
    println!(rt; "{file}: {} passed, {failed} failed", report.passed)?;
    Ok(report)
}

fn write_failures(
    rt: &HostRuntime,
    file: &str,
    lines: &[&str],
    failures: &[FailedRow],
) -> io::Result<()>
    requires { All (λ f. f.index < length lines.now) failures.now }
{
    for failure in failures {
        let row = lines[failure.index];
        println!(rt;
            "{file}:{}: {row}\n    returned: {}",
            failure.index + 1,
            failure.returned
        )?;
    }
    Ok(())
}
