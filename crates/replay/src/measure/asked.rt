//! Calls that match a path.

ghost use Rattle.std.specs.Prelude.{◌<◌};

use crate::measure::measured::Measured;
use anyhow::Result;
use globset::{Candidate, Error, GlobMatcher, GlobSet, Searcher};

/// A call that matches a path. The [`Candidate`] is made in the call, since a program makes it for each path.
pub trait Asked {
    /// Returns how many matches it finds.
    fn ask(&mut self, path: &str) -> Result<usize, Error>;

    /// Returns how many calls it makes for a path.
    fn calls(&self) -> usize {
        1
    }
}

/// `GlobSet::is_match_candidate`.
impl Asked for GlobSet {
    fn ask(&mut self, path: &str) -> Result<usize, Error> {
        Ok(self.is_match_candidate(&Candidate::new(path))? as usize)
    }
}

/// `GlobSet::matches_candidate_into`, with the same vector for all paths.
#[derive(Drop)]
pub struct MatchesInto {
    pub set: GlobSet,
    pub into: Vec<usize>,
}

impl Asked for MatchesInto {
    fn ask(&mut self, path: &str) -> Result<usize, Error> {
        self.set
            .matches_candidate_into(&Candidate::new(path), &mut self.into)?;
        Ok(self.into.len())
    }
}

/// `GlobMatcher::is_match_candidate`, of a matcher for each glob.
impl Asked for Vec<GlobMatcher> {
    fn ask(&mut self, path: &str) -> Result<usize, Error> {
        let path = Candidate::new(path);
        let mut found = 0usize;
        for matcher in self.as_slice() {
            if matcher.is_match_candidate(&path)? {
                found = found.wrapping_add(1);
            }
        }
        Ok(found)
    }

    fn calls(&self) -> usize {
        self.len()
    }
}

/// `Searcher::matches`.
impl Asked for Searcher {
    fn ask(&mut self, path: &str) -> Result<usize, Error> {
        Ok(self.matches(&Candidate::new(path)).len())
    }
}

/// Returns how many matches there are for these paths.
pub fn ask_all<A: Asked>(asked: &mut A, paths: &[&str]) -> Result<usize> {
    let mut found = 0usize;
    for path in paths {
        found = found.wrapping_add(asked.ask(path)?);
    }
    Ok(found)
}

/// Asks about each of these paths, between two readings of the clock.
pub fn add_piece<A: Asked>(
    measured: &mut Measured<'_>,
    asked: &mut A,
    paths: &[&str],
) -> Result<()> {
    let start = measured.start()?;
    let found = ask_all(asked, paths)?;
    measured.stop(start, paths.len().saturating_mul(asked.calls()), found)
}

/// Adds rounds over the paths, in pieces of `piece` paths.
pub fn add_rounds<A: Asked>(
    measured: &mut Measured<'_>,
    asked: &mut A,
    paths: &[&str],
    piece: usize,
) -> Result<()>
    requires { 0 < piece }
{
    for _ in 0..measured.limits.rounds {
        for some in paths.chunks(piece) {
            if measured.is_enough() {
                return Ok(());
            }
            add_piece(measured, asked, some)?;
        }
    }
    Ok(())
}
