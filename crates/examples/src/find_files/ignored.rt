//! What ignore files leave out of a walk.

use super::arguments::Arguments;
use crate::command::Fault;
use crate::ignore_lines::walk::go_up;
use crate::text_file::TextFile;
use git_ignore::IgnoreStack;
use std::alloc::AllocError;
use std::fs::{self, FileType};
use std::io;

/// The ignore files of the walk's current directory and of the directories above it, if they are wanted.
#[derive(Drop)]
pub struct Ignored {
    stack: Option<IgnoreStack>,
}

impl Ignored {
    /// Returns the state before the first directory is entered, with the ignore files that the arguments name. Fails if one of
    /// these cannot be read.
    pub fn new(rt: &HostRuntime, arguments: &Arguments<'_>) -> Result<Ignored, Fault> {
        if !arguments.switches.ignored {
            return Ok(Ignored { stack: None });
        }
        let mut stack = IgnoreStack::new(rt.alloc());
        for name in &arguments.excludes {
            stack.add_file(&TextFile::read(rt, name)?.bytes)?;
        }
        Ok(Ignored { stack: Some(stack) })
    }

    /// Returns whether a directory is a repository of its own, which git does not look into. Its path ends in `/`. In it there is a
    /// directory `.git` with a file `HEAD`, or a file `.git`, which says where that directory is.
    pub fn is_repository(&self, rt: &HostRuntime, folder: &str) -> Result<bool, AllocError> {
        if self.stack.is_none() {
            return Ok(false);
        }
        let head = file_in(rt, folder, ".git/HEAD")?;
        Ok(head.is_some() || file_in(rt, folder, ".git")?.is_some())
    }

    /// Returns whether an entry of this kind is printed as a file. git prints symbolic links, too.
    pub fn is_file(&self, kind: FileType) -> bool {
        kind.is_file() || (kind.is_symlink() && self.stack.is_some())
    }

    /// Goes to a directory, whose path from the first directory on is `below`, and reads its ignore files. Returns the path and the
    /// error of a file that is there and cannot be read, of the last if there are two.
    pub fn enter(
        &mut self,
        rt: &HostRuntime,
        folder: &str,
        below: &str,
    ) -> Result<Option<(String, io::Error)>, AllocError> {
        let Some(stack) = &mut self.stack else {
            return Ok(None);
        };
        if let Some(name) = go_up(stack, below.as_bytes()).strip_suffix(b"/") {
            stack.enter(name)?;
        }
        let mut failed = None;
        // Only the first directory has the first file.
        let names = [".git/info/exclude", ".gitignore"];
        for name in &names[usize::from(!below.is_empty())..] {
            let Some(path) = file_in(rt, folder, name)? else {
                continue;
            };
            match fs::read(rt, path.as_str()) {
                Ok(bytes) => stack.add_file(&bytes)?,
                Err(error) => failed = Some((path, error)),
            }
        }
        Ok(failed)
    }

    /// Returns whether an entry of the current directory is ignored, or is named `.git`.
    pub fn leaves_out(&mut self, below: &str, is_folder: bool) -> Result<bool, AllocError> {
        let Some(stack) = &mut self.stack else {
            return Ok(false);
        };
        let name = below.as_bytes().get(stack.folder().len()..).unwrap_or(&[]);
        if name == b".git".as_slice() {
            return Ok(true);
        }
        Ok(stack.decide(name, is_folder)?.is_ignored())
    }
}

/// Returns the path of a file in a directory, if it is there, and no link.
fn file_in(rt: &HostRuntime, folder: &str, name: &str) -> Result<Option<String>, AllocError> {
    let path = format!(in rt.alloc(); "{folder}{name}")?;
    let is_file = fs::symlink_metadata(rt, path.as_str()).is_ok_and(|it| it.is_file());
    Ok(if is_file { Some(path) } else { None })
}
