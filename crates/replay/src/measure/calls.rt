//! The calls by their names.

use crate::measure::asked::{Asked, MatchesInto, add_piece, add_rounds, ask_all};
use crate::measure::input::GlobText;
use crate::measure::made::{AskedSets, Making, Searchers, Sets, add_making, add_reading, read};
use crate::measure::measured::{Limits, Measured};
use anyhow::{Result, anyhow};
use globset::{GlobMatcher, GlobSet, Searcher};

/// The first calls, which are measured by themselves: many sets take more time for these than for later calls.
const FIRST: usize = 100;

/// The calls between two looks at the clock.
const PIECE: usize = 500;

/// A measurement: its globs and paths, and its time limit.
#[derive(Clone, Copy)]
pub struct Job<'a> {
    pub rt: &'a HostRuntime,
    pub globs: &'a [GlobText<'a>],
    pub paths: &'a [&'a str],
    pub limits: Limits,
}

impl Job<'_> {
    /// Measures the call of this name.
    pub fn run(&self, call: &str) -> Result<()> {
        match call {
            "is_match" => self.ask(call, self.set()?),
            "matches" => {
                let set = self.set()?;
                let into = Vec::new(self.rt.alloc());
                self.ask(call, MatchesInto { set, into })
            }
            "matcher" => self.ask(call, self.matchers()?),
            "searcher" => self.ask(call, Searcher::new(self.rt.alloc(), &self.set()?)?),
            "read" => self.reading(call),
            "make" => self.make(call, &Sets),
            "make_searcher" => self.make(call, &Searchers),
            "make_and_ask" => {
                let path = self.paths.first().copied().unwrap_or("");
                self.make(call, &AskedSets { path })
            }
            _ => Err(anyhow!("a call is unknown")),
        }
    }

    fn set(&self) -> Result<GlobSet> {
        Ok(GlobSet::new(self.rt.alloc(), &read(self.rt.alloc(), self.globs)?)?)
    }

    fn matchers(&self) -> Result<Vec<GlobMatcher>> {
        let mut matchers = Vec::new(self.rt.alloc());
        for text in self.globs {
            matchers.push(text.read(self.rt.alloc())?.compile_matcher()?)?;
        }
        Ok(matchers)
    }

    /// Asks about each of the paths.
    fn ask<A: Asked + Drop>(&self, call: &str, mut asked: A) -> Result<()> {
        if self.limits.rounds == 0 {
            return self.count(call, ask_all(&mut asked, self.paths)?);
        }
        let mut measured = Measured::new(self.rt, self.limits);
        let calls = asked.calls().max(1);
        let first = self.paths.get(..FIRST.div_ceil(calls));
        add_piece(&mut measured, &mut asked, first.unwrap_or(self.paths))?;
        let piece = PIECE.div_ceil(calls);
        add_rounds(&mut measured, &mut asked, self.paths, piece)?;
        measured.write(call, self.paths.len().div_ceil(piece))
    }

    /// Writes a count instead of times.
    fn count(&self, call: &str, found: usize) -> Result<()> {
        println!(self.rt; "{call}\t{found}")?;
        Ok(())
    }

    fn reading(&self, call: &str) -> Result<()> {
        if self.limits.rounds == 0 {
            return self.count(call, read(self.rt.alloc(), self.globs)?.len());
        }
        let mut measured = Measured::new(self.rt, self.limits);
        add_reading(&mut measured, self.rt.alloc(), self.globs)?;
        measured.write(call, 1)
    }

    fn make<M: Making>(&self, call: &str, making: &M) -> Result<()> {
        let globs = read(self.rt.alloc(), self.globs)?;
        if self.limits.rounds == 0 {
            making.make(self.rt.alloc(), &globs)?;
            return self.count(call, globs.len());
        }
        let mut measured = Measured::new(self.rt, self.limits);
        add_making(&mut measured, self.rt.alloc(), making, &globs)?;
        measured.write(call, 1)
    }
}
