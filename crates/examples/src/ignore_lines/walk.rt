//! A walk over the directories of paths, with the ignore files of each.

use crate::text_file::TextFile;
use git_ignore::{DecideBy, DecidingRule, IgnoreStack, RulesBuilder};
use memchr::memrchr;
use std::alloc::{AllocError, Global};

/// The directory of the last path, with the rules of its ignore files and of those of the directories above it.
///
/// A directory is decided, and its files are read, when the walk goes into it. For paths in the order of a walk this is once.
#[derive(Drop)]
pub struct PathWalk {
    stack: IgnoreStack,
    /// The files of all directories. Those of deeper directories come last.
    files: Vec<TextFile>,
}

impl PathWalk {
    /// Returns a walk in the top directory. Each ignore file is for its own directory, by its name. Of those of a directory, a
    /// later one takes precedence.
    pub fn new(
        alloc: Global,
        mut files: Vec<TextFile>,
        ignore_case: bool,
    ) -> Result<PathWalk, AllocError> {
        files.sort_by_key(|file| file.folder().len())?;
        let stack = RulesBuilder::new()
            .ignore_case(ignore_case)
            .build_stack(alloc);
        let mut walk = PathWalk { stack, files };
        walk.add_files()?;
        Ok(walk)
    }

    /// Goes to the directory of a path, and returns the rule that decides about the path, if there is any.
    pub fn deciding_rule(
        &mut self,
        path: &[u8],
        is_folder: bool,
    ) -> Result<Option<DecidingRule>, AllocError> {
        let below = go_up(&mut self.stack, path);
        let name = match memrchr(b'/', below) {
            Some(end) => {
                for name in below[..end].split(|byte| *byte == b'/') {
                    self.stack.enter(name)?;
                    self.add_files()?;
                }
                &below[end + 1..]
            }
            None => below,
        };
        self.stack.deciding_rule(name, is_folder, DecideBy::Git)
    }

    /// Returns the name of the file of a rule that decides about the last path, and the text of the rule's line.
    pub fn file_and_text(&self, rule: DecidingRule) -> (&str, &[u8]) {
        let folder = self.stack.folder();
        let mut above = self
            .files
            .iter()
            .filter(|it| folder.starts_with(it.folder()));
        let name = above.nth(rule.file).map_or("", |it| it.name.as_str());
        let text = self.stack.line_text(rule.file, rule.line);
        (name, text.unwrap_or(&[]))
    }

    /// Reads the files of the directory that the walk is in.
    fn add_files(&mut self) -> Result<(), AllocError> {
        for file in &self.files {
            if file.folder() == self.stack.folder() {
                self.stack.add_file(&file.bytes)?;
            }
        }
        Ok(())
    }
}

/// Goes up to the deepest directory that the path is below, and returns the path from there.
pub fn go_up<'a>(stack: &mut IgnoreStack, path: &'a [u8]) -> &'a [u8] {
    let folder = stack.folder();
    let same = folder.iter().zip(path).take_while(|(a, b)| a == b).count();
    let kept = memrchr(b'/', &folder[..same]).map_or(0, |at| at + 1);
    let levels = folder[kept..].iter().filter(|byte| **byte == b'/').count();
    for _ in 0..levels {
        stack.leave();
    }
    // What is left is a directory above the path.
    path.strip_prefix(stack.folder()).unwrap_or(path)
}
