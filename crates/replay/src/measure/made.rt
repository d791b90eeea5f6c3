//! Globs that are read, and sets that are made.

use crate::measure::input::GlobText;
use crate::measure::measured::Measured;
use anyhow::Result;
use globset::{Candidate, Glob, GlobSet, Searcher};
use std::alloc::Global;

/// At least this many globs are read before the clock is read again.
const GLOBS: usize = 64;

/// This many small sets are made before the clock is read again.
const BATCH: usize = 16;

/// A set is small if it takes no more nanoseconds.
const SMALL: u64 = 6_000;

/// Returns the globs.
pub fn read(alloc: Global, texts: &[GlobText<'_>]) -> Result<Vec<Glob>> {
    let mut globs = Vec::with_capacity(alloc, texts.len())?;
    push_read(alloc, texts, &mut globs)?;
    Ok(globs)
}

/// Adds rounds that read all globs, several times if they are few. Freeing them is not measured.
pub fn add_reading(
    measured: &mut Measured<'_>,
    alloc: Global,
    texts: &[GlobText<'_>],
) -> Result<()> {
    let times = GLOBS.div_ceil(texts.len().max(1));
    let mut globs = Vec::with_capacity(alloc, texts.len().saturating_mul(times))?;
    for _ in 0..measured.limits.rounds {
        if measured.is_enough() {
            return Ok(());
        }
        let start = measured.start()?;
        for _ in 0..times {
            push_read(alloc, texts, &mut globs)?;
        }
        measured.stop(start, globs.len(), globs.len())?;
        globs.clear();
    }
    Ok(())
}

fn push_read(alloc: Global, texts: &[GlobText<'_>], globs: &mut Vec<Glob>) -> Result<()> {
    for text in texts {
        globs.push(text.read(alloc)?)?;
    }
    Ok(())
}

/// Something that is made of globs.
pub trait Making {
    /// What is made.
    type Made: Drop;

    /// Returns what is made of these globs.
    fn make(&self, alloc: Global, globs: &[Glob]) -> Result<Self::Made>;
}

/// `GlobSet::new`.
pub struct Sets;

impl Making for Sets {
    type Made = GlobSet;

    fn make(&self, alloc: Global, globs: &[Glob]) -> Result<GlobSet> {
        Ok(GlobSet::new(alloc, globs)?)
    }
}

/// `GlobSet::new` and `Searcher::new`.
pub struct Searchers;

impl Making for Searchers {
    type Made = Searcher;

    fn make(&self, alloc: Global, globs: &[Glob]) -> Result<Searcher> {
        Ok(Searcher::new(alloc, &GlobSet::new(alloc, globs)?)?)
    }
}

/// `GlobSet::new` and `GlobSet::is_match_candidate` of a path.
#[derive(Drop)]
pub struct AskedSets<'a> {
    pub path: &'a str,
}

impl Making for AskedSets<'_> {
    type Made = (GlobSet, bool);

    fn make(&self, alloc: Global, globs: &[Glob]) -> Result<(GlobSet, bool)> {
        let set = GlobSet::new(alloc, globs)?;
        let is_match = set.is_match_candidate(&Candidate::new(self.path))?;
        Ok((set, is_match))
    }
}

/// Adds rounds that make something, several times if it takes little time. Freeing it is not measured.
pub fn add_making<M: Making>(
    measured: &mut Measured<'_>,
    alloc: Global,
    making: &M,
    globs: &[Glob],
) -> Result<()> {
    let mut made = Vec::with_capacity(alloc, BATCH)?;
    let mut count = 1;
    for _ in 0..measured.limits.rounds {
        if measured.is_enough() {
            return Ok(());
        }
        let start = measured.start()?;
        for _ in 0..count {
            made.push(making.make(alloc, globs)?)?;
        }
        measured.stop(start, count, globs.len())?;
        made.clear();
        if count == 1 && measured.forget_small(SMALL) {
            count = BATCH;
        }
    }
    Ok(())
}
