//! The walk: the opened directories, and the order of the printed paths. There is no recursion: a vector has the pending paths.
//!
//! Paths are in the order of their bytes, where the path of a directory ends in `/`: so `a.c` comes before the contents of `a`,
//! since `.` is less than `/`.

use super::COMMAND;
use super::arguments::{Arguments, Switches, read_globs};
use super::ignored::Ignored;
use crate::command::Fault;
use globset::{Candidate, Searcher};
use std::fs::{self, DirEntry};
use std::io::{self, BufWriter, ErrorKind, Write};
use std::process::ExitCode;

/// A walk through a tree of directories.
#[derive(Drop)]
pub struct Walk {
    globs: Searcher,
    ignored: Ignored,
    switches: Switches,
    /// The paths of files to print and of directories to open, the next path last. Paths of directories end in `/`. Each path
    /// begins with that of the first directory.
    pending: Vec<String>,
    /// How many bytes of a path are not printed: the first directory, and `/`.
    skipped: usize,
    opened: u64,
    left_closed: u64,
    /// Whether a path was printed.
    has_printed: bool,
    /// Whether something could not be read.
    has_failed: bool,
}

impl Walk {
    /// Returns a walk that is to open the directory of the arguments. Fails if a glob or a file that they name cannot be read.
    pub fn new(rt: &HostRuntime, arguments: &Arguments<'_>) -> Result<Walk, Fault> {
        let mut walk = Walk {
            globs: read_globs(rt, arguments)?,
            ignored: Ignored::new(rt, arguments)?,
            switches: arguments.switches,
            pending: Vec::new(rt.alloc()),
            skipped: 0,
            opened: 0,
            left_closed: 0,
            has_printed: false,
            has_failed: false,
        };
        let name = arguments.folder();
        let folder = format!(in rt.alloc(); "{}/", name.strip_suffix('/').unwrap_or(name))?;
        walk.skipped = folder.len();
        walk.pending.push(folder)?;
        Ok(walk)
    }

    /// Walks, and prints the paths that match. Returns the exit status.
    ///
    /// Entries that cannot be read are left out, with an error on standard error. Fails if standard output cannot be written.
    pub fn run(&mut self, rt: &HostRuntime) -> Result<ExitCode, Fault> {
        let mut output = BufWriter::new(rt.alloc(), io::writer(rt)).map_err(Fault::Output)?;
        for _ in 0..u64::MAX {
            let Some(path) = self.pending.pop() else {
                break;
            };
            self.visit(rt, path.as_str(), &mut output)?;
        }
        output.flush().map_err(Fault::Output)?;
        if self.switches.count {
            let (opened, closed) = (self.opened, self.left_closed);
            let _ = eprintln!(rt; "find_files: folders opened: {opened}, left closed: {closed}");
        }
        Ok(ExitCode::from(match (self.has_failed, self.has_printed) {
            (true, _) => 2,
            (false, true) => 0,
            (false, false) => 1,
        }))
    }

    /// Opens a directory, or prints the path of a file. A repository in the first directory stays closed, and its path is printed
    /// if it matches.
    fn visit(
        &mut self,
        rt: &HostRuntime,
        path: &str,
        output: &mut impl Write,
    ) -> Result<(), Fault> {
        let below = self.shown(path);
        if !path.ends_with('/') {
            return self.print(below, output);
        }
        if below.is_empty() || !self.ignored.is_repository(rt, path)? {
            return self.open(rt, path);
        }
        self.left_closed = self.left_closed.saturating_add(1);
        let name = below.strip_suffix('/').unwrap_or(below);
        if self.globs.is_match(&Candidate::new(name)) {
            self.print(below, output)?;
        }
        Ok(())
    }

    /// Prints a path, which is below the first directory.
    fn print(&mut self, below: &str, output: &mut impl Write) -> Result<(), Fault> {
        self.has_printed = true;
        let end = if self.switches.ends_in_nul {
            b'\0'
        } else {
            b'\n'
        };
        output.write_all(below.as_bytes()).map_err(Fault::Output)?;
        output.write_all(&[end]).map_err(Fault::Output)
    }

    /// Returns the part of a path that globs are matched against and that is printed.
    fn shown<'p>(&self, path: &'p str) -> &'p str {
        path.get(self.skipped..).unwrap_or(path)
    }

    /// Opens a directory. Its entries are then pending, in the order of their bytes.
    fn open(&mut self, rt: &HostRuntime, folder: &str) -> Result<(), Fault> {
        self.opened = self.opened.saturating_add(1);
        let below = self.shown(folder);
        if let Some((path, error)) = self.ignored.enter(rt, folder, below)? {
            self.report(rt, path.as_str(), error);
        }
        let first = self.pending.len();
        match fs::read_dir(rt, folder) {
            Ok(entries) => {
                for entry in entries {
                    match entry {
                        Ok(entry) => self.take(rt, &entry)?,
                        Err(error) => self.report(rt, folder, error),
                    }
                }
            }
            Err(error) => self.report(rt, folder, error),
        }
        if let Some(added) = self.pending.as_mut_slice().get_mut(first..) {
            added.sort_unstable_by(|one, other| other.as_str().cmp(one.as_str()));
        }
        Ok(())
    }

    /// Takes an entry of a directory: its path is pending if it is to be printed or opened, and is not ignored. It gets the type
    /// only where that matters. Links are left out, unless ignore files are read, as git prints them. Other things that are neither
    /// a file nor a directory are left out, too.
    fn take(&mut self, rt: &HostRuntime, entry: &DirEntry) -> Result<(), Fault> {
        let path = entry.path().as_str();
        let below = self.shown(path);
        let candidate = Candidate::new(below);
        let is_match = self.globs.is_match(&candidate);
        let can_match_below = self.globs.can_match_below(&candidate);
        if !is_match && !can_match_below && !self.switches.count {
            return Ok(());
        }
        let kind = match entry.file_type() {
            Ok(kind) => kind,
            Err(error) => {
                self.report(rt, path, error);
                return Ok(());
            }
        };
        let is_kept = !self.ignored.leaves_out(below, kind.is_dir())?;
        if kind.is_dir() {
            let folder = format!(in rt.alloc(); "{path}/")?;
            let is_printed = is_match && self.ignored.is_repository(rt, folder.as_str())?;
            if is_kept && (can_match_below || is_printed) {
                self.pending.push(folder)?;
            } else {
                self.left_closed = self.left_closed.saturating_add(1);
            }
        } else if is_match && is_kept && self.ignored.is_file(kind) {
            self.pending.push(String::from_str(rt.alloc(), path)?)?;
        }
        Ok(())
    }

    /// Prints that something cannot be read. A name that is not UTF-8 has a text of its own.
    fn report(&mut self, rt: &HostRuntime, path: &str, error: io::Error) {
        self.has_failed = true;
        let name = path.strip_suffix('/').unwrap_or(path);
        // A path that is too long for the system has the same kind, and a number.
        let error = match (error.kind(), error.raw_os_error()) {
            (kind @ ErrorKind::InvalidFilename, None) => {
                io::Error::new(kind, "it has a name that is not UTF-8")
            }
            _ => error,
        };
        COMMAND.report(rt, &Fault::file(rt.alloc(), name, error));
    }
}
