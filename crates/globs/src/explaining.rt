//! `globs explain` prints how a glob is read, a shortest path that it matches, and how far paths match.

use crate::fault::{Fault, Shown};
use crate::globs::{GlobList, Reading};
use crate::input::write;
use clap::ArgMatches;
use glob_answers::shortest::{Example, shortest_match};
use glob_relations::{Domain, Intersection, overlap};
use glob_syntax::Token;
use globset::{Glob, GlobBuilder, escape};
use globset_glob::flat_tokens_of;
use std::alloc::{AllocError, Global};
use std::fmt::Display;

/// The paths of which a shortest is printed, and of those that begin as a path does, unless that begins with `/`.
const DOMAIN: Domain = Domain::RelativePaths;

/// The most rows of a search.
const LIMIT: usize = 100_000;

/// Explains a glob, and each path. Returns whether it matches each.
pub fn run(rt: &HostRuntime, found: &ArgMatches<'_>) -> Result<bool, Fault> {
    let alloc = rt.alloc();
    let reading = Reading::of(found);
    let mut list = GlobList::new(alloc);
    list.push_texts(rt, reading, "glob", found.get_strs("GLOB"))?;
    list.finish()?;
    let Some(glob) = list.globs.first() else {
        return Ok(false);
    };
    let mut output = Output::new(alloc);
    output.push_glob(glob, reading.has_separator())?;
    let mut is_match = true;
    for path in found.get_strs("PATH").unwrap_or(&[]) {
        is_match = output.push_path(glob, path)? && is_match;
    }
    write(rt, output.text.as_bytes())?;
    Ok(is_match)
}

/// The text that is printed.
#[derive(Drop)]
struct Output {
    alloc: Global,
    text: String,
}

/// How far a path matches.
#[derive(Drop)]
struct Progress {
    /// The number of bytes of the longest beginning of the path with which some path begins that the glob matches.
    begun: usize,
    /// A shortest path that begins so and that the glob matches.
    nearest: Option<Vec<u8>>,
    /// Whether the search for a longer beginning reached the limit.
    is_unknown: bool,
}

impl Output {
    fn new(alloc: Global) -> Output {
        Output {
            alloc,
            text: String::new(alloc),
        }
    }

    /// Adds a line: a word in a column, and what it says.
    fn push(&mut self, word: &str, what: impl Display + Drop) -> Result<(), AllocError> {
        let line = format!(in self.alloc; "{word:<10}{what}\n")?;
        self.text.push_str(line.as_str())
    }

    /// Adds what a glob means, its regular expression, and a shortest path that it matches.
    fn push_glob(&mut self, glob: &Glob, has_separator: bool) -> Result<(), Fault> {
        self.push("glob", Shown(glob.glob().as_bytes()))?;
        let mut literal = String::new(self.alloc);
        for token in flat_tokens_of(glob) {
            if let Token::Literal(character) = token {
                literal.push(*character)?;
                continue;
            }
            self.push_literal(&mut literal)?;
            self.push_token(token, has_separator)?;
        }
        self.push_literal(&mut literal)?;
        self.push("regex", Shown(glob.regex().as_bytes()))?;
        match shortest_match(self.alloc, glob, DOMAIN, LIMIT)? {
            Example::Path(path) => self.push("shortest", Shown(&path))?,
            Example::Nothing => self.push("shortest", "none: it matches no relative path")?,
            Example::Unknown => self.push("shortest", "unknown")?,
        }
        Ok(())
    }

    /// Adds the plain characters so far, if there are any, and clears them.
    fn push_literal(&mut self, literal: &mut String) -> Result<(), AllocError> {
        if !literal.is_empty() {
            let text = format!(in self.alloc; "  {}", Shown(literal.as_bytes()))?;
            self.push(text.as_str(), "  this text")?;
            literal.clear();
        }
        Ok(())
    }

    /// Adds a token that is no plain character, in words.
    fn push_token(&mut self, token: &Token, has_separator: bool) -> Result<(), AllocError> {
        let (text, meaning) = match (token, has_separator) {
            (Token::Literal(_), _) => return Ok(()),
            (Token::Class(_), _) => return self.push_class(token),
            (Token::Any, false) => ("  ?", "  any one byte"),
            (Token::Any, true) => ("  ?", "  any one byte but /"),
            (Token::ZeroOrMore, false) => ("  *", "  any bytes, or none"),
            (Token::ZeroOrMore, true) => ("  *", "  any bytes but /, or none"),
            (Token::RecursivePrefix, _) => ("  **/", "  any directories, or none"),
            (Token::RecursiveSuffix, _) => ("  /**", "  / and anything after it"),
            (Token::RecursiveZeroOrMore, _) => (
                "  /**/",
                "  /, and any directories after it, or none",
            ),
            (Token::Open, _) => ("  {", "  one of these:"),
            (Token::Comma, _) => ("  ,", "  or"),
            (Token::Close, _) => ("  }", "  the end of the choice"),
        };
        self.push(text, meaning)
    }

    /// Adds a class, with the ranges of its characters.
    fn push_class(&mut self, token: &Token) -> Result<(), AllocError> {
        let Token::Class(class) = token else {
            return Ok(());
        };
        let word = if class.negated() { "not in" } else { "in" };
        let mut meaning = format!(in self.alloc; "  one character {word}")?;
        for (first, last) in class.ranges() {
            let range = if first == last {
                format!(in self.alloc; " {first:?}")?
            } else {
                format!(in self.alloc; " {first:?} to {last:?}")?
            };
            meaning.push_str(range.as_str())?;
        }
        self.push("  [..]", meaning.as_str())
    }

    /// Adds whether a path matches, and else how far. Returns whether it matches.
    fn push_path(&mut self, glob: &Glob, path: &str) -> Result<bool, Fault> {
        let is_match = glob.compile_matcher()?.is_match(path)?;
        self.push("path", Shown(path.as_bytes()))?;
        if is_match {
            self.push("", "matches")?;
            return Ok(true);
        }
        let progress = progress_of(self.alloc, glob, path)?;
        let begun = path.get(..progress.begun).unwrap_or("");
        let width = Shown(begun.as_bytes())
            .to_string(self.alloc)?
            .chars()
            .count();
        let spaces = " ".repeat(self.alloc, width)?;
        let reason = if progress.is_unknown {
            "unknown from here"
        } else if progress.begun == path.len() {
            "the path ends here, and no match does"
        } else {
            "no match goes on so"
        };
        let mark = format!(in self.alloc; "{spaces}^ {reason}")?;
        self.push("", mark.as_str())?;
        if let Some(path) = progress.nearest {
            self.push("nearest", Shown(&path))?;
        }
        Ok(false)
    }
}

/// Returns how far a path matches.
fn progress_of(alloc: Global, glob: &Glob, path: &str) -> Result<Progress, Fault> {
    let mut progress = Progress {
        begun: 0,
        nearest: None,
        is_unknown: false,
    };
    let ends = path
        .char_indices()
        .map(|(at, c)| at.saturating_add(c.len_utf8()));
    for end in [0].into_iter().chain(ends) {
        match begun(alloc, glob, path.get(..end).unwrap_or(path))? {
            Intersection::Both(path) => {
                progress.begun = end;
                progress.nearest = Some(path);
            }
            Intersection::Disjoint => break,
            Intersection::Unknown => {
                progress.is_unknown = true;
                break;
            }
        }
    }
    Ok(progress)
}

/// Returns a shortest path that a glob matches and that begins with a text.
fn begun(alloc: Global, glob: &Glob, text: &str) -> Result<Intersection, Fault> {
    let domain = if text.starts_with('/') {
        Domain::AllPaths
    } else {
        DOMAIN
    };
    let text = format!(in alloc; "{}*", escape(alloc, text)?)?;
    let begins = GlobBuilder::new(text.as_str()).build(alloc)?;
    Ok(overlap(alloc, glob, &begins, domain, LIMIT)?)
}
