//! A rule of an owners file, with the meaning of a `CODEOWNERS` file on GitHub.
//!
//! - `#` begins a comment, which ends with the line. A line that has nothing else is skipped.
//! - Every other line is a rule: a pattern, and after spaces or tabs its owners. They may be missing: then matched paths have no
//!   owners.
//! - The last rule that matches a path decides.
//! - `*` and `?` do not match `/`. `**/` at the start and `/**/` match any directories, and `/**` at the end matches the
//!   contents of a directory.
//! - A pattern with a `/` that is not its last character matches from the root. Every other pattern matches at any depth.
//! - A pattern matches everything in the directories that it matches, unless it ends in `/*`. A pattern that ends in `/`
//!   matches nothing else.
//!
//! It differs from GitHub in this: `{a,b}` and `[ab]` match `a` and `b`, owners are not looked up, and a pattern that cannot be
//! read is an error.

use globset::{Error, Glob, GlobBuilder};
use std::alloc::Global;

/// A line of an owners file, taken apart.
#[derive(Clone, Copy)]
pub struct OwnerRule<'t> {
    /// Its pattern, which is empty if the line has no rule.
    pub pattern: &'t str,
    /// Its owners, as they are written.
    pub owners: &'t str,
}

impl<'t> OwnerRule<'t> {
    /// Takes a line apart.
    pub fn new(line: &'t str) -> OwnerRule<'t> {
        let (rule, _comment) = line.split_once('#').unwrap_or((line, ""));
        let rule = rule.trim();
        let (pattern, owners) = rule.split_once([' ', '\t']).unwrap_or((rule, ""));
        OwnerRule {
            pattern,
            owners: owners.trim(),
        }
    }

    /// Returns the globs of the rule: it matches a path if one of them does. A rule of `/` alone has none. Fails if the pattern
    /// cannot be read.
    pub fn globs(&self, alloc: Global) -> Result<Vec<Glob>, Error> {
        let mut globs = Vec::new(alloc);
        let (depth, path) = self.depth_and_path();
        if path.is_empty() {
            return Ok(globs);
        }
        let ends: &[&str] = match self.pattern.as_bytes() {
            [.., b'/', b'*'] => &[""],
            [.., b'/'] => &["/**"],
            _ => &["", "/**"],
        };
        for end in ends {
            let text = format!(in alloc; "{depth}{path}{end}")?;
            let glob = GlobBuilder::new(text.as_str())
                .literal_separator(true)
                .build(alloc)?;
            globs.push(glob)?;
        }
        Ok(globs)
    }

    /// Returns what the globs begin with, and the part of the pattern that follows it.
    fn depth_and_path(&self) -> (&'static str, &'t str) {
        let path = self.pattern.strip_suffix('/').unwrap_or(self.pattern);
        let depth = if path.contains('/') { "" } else { "**/" };
        (depth, path.strip_prefix('/').unwrap_or(path))
    }

    /// Returns the number of bytes of the pattern before a place in its globs.
    pub fn place_in_pattern(&self, offset: usize) -> usize {
        let (depth, _path) = self.depth_and_path();
        let slash = if self.pattern.starts_with('/') { 1 } else { 0 };
        offset.saturating_sub(depth.len()).saturating_add(slash)
    }
}
