//! The globs and the paths of standard input.

use anyhow::{Result, anyhow};
use globset::{Error, Glob, GlobBuilder};
use std::alloc::Global;

/// The options that a glob is read under.
#[derive(Clone, Copy, Default)]
pub struct GlobOptions {
    case_insensitive: bool,
    literal_separator: bool,
    empty_alternates: bool,
    allow_unclosed_class: bool,
    no_backslash_escape: bool,
}

impl GlobOptions {
    /// Changes the option that a flag names, as `globsift` does.
    fn set(&mut self, flag: &str) -> Result<()> {
        match flag {
            "-i" => self.case_insensitive = true,
            "-s" => self.literal_separator = true,
            "-e" => self.empty_alternates = true,
            "-u" => self.allow_unclosed_class = true,
            "-b" => self.no_backslash_escape = true,
            _ => return Err(anyhow!("an option is unknown")),
        }
        Ok(())
    }
}

/// The text of a glob, and its options.
#[derive(Clone, Copy)]
pub struct GlobText<'a> {
    text: &'a str,
    options: GlobOptions,
}

impl GlobText<'_> {
    /// Reads the glob.
    pub fn read(&self, alloc: Global) -> Result<Glob, Error> {
        GlobBuilder::new(self.text)
            .case_insensitive(self.options.case_insensitive)
            .literal_separator(self.options.literal_separator)
            .empty_alternates(self.options.empty_alternates)
            .allow_unclosed_class(self.options.allow_unclosed_class)
            .backslash_escape(!self.options.no_backslash_escape)
            .build(alloc)
    }
}

/// The globs, and the paths.
#[derive(Drop)]
pub struct Input<'a> {
    pub globs: Vec<GlobText<'a>>,
    pub paths: Vec<&'a str>,
}

impl<'a> Input<'a> {
    /// Parses the lines of options and globs, an empty line, and the paths.
    pub fn parse(alloc: Global, text: &'a str) -> Result<Input<'a>> {
        let mut globs = Vec::new(alloc);
        let mut paths = Vec::new(alloc);
        let mut options = GlobOptions::default();
        let mut are_paths = false;
        for line in text.lines() {
            if are_paths {
                paths.push(line)?;
            } else if line.is_empty() {
                are_paths = true;
            } else if line.starts_with('-') {
                options.set(line)?;
            } else {
                globs.push(GlobText {
                    text: line,
                    options,
                })?;
            }
        }
        Ok(Input { globs, paths })
    }
}
