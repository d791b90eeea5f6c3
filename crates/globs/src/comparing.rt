//! `globs compare` prints how two lists of globs compare.

use crate::fault::{Fault, Shown};
use crate::globs::{GlobList, Reading};
use crate::input::write;
use clap::ArgMatches;
use glob_answers::comparison::{Relation, compare};
use glob_relations::{Coverage, Domain};
use globset::Glob;
use std::alloc::{AllocError, Global};

/// The paths that lists are compared by.
const DOMAIN: Domain = Domain::RelativePaths;

/// The most rows of a search.
const LIMIT: usize = 100_000;

/// Compares two lists, and returns whether they are equal. Fails if that is not known.
pub fn run(rt: &HostRuntime, found: &ArgMatches<'_>) -> Result<bool, Fault> {
    let alloc = rt.alloc();
    let reading = Reading::of(found);
    let mut left = GlobList::new(alloc);
    left.push_texts(rt, reading, "left glob", found.get_strs("left"))?;
    left.push_files(rt, reading, found.get_strs("a-from"))?;
    let mut right = GlobList::new(alloc);
    right.push_texts(rt, reading, "right glob", found.get_strs("right"))?;
    right.push_files(rt, reading, found.get_strs("b-from"))?;
    left.finish()?;
    right.finish()?;
    let told = compare(alloc, &left.globs, &right.globs, DOMAIN, LIMIT)?;
    let word = match told.relation {
        Relation::Equal => "equal",
        Relation::Within => "left is within right",
        Relation::Includes => "right is within left",
        Relation::Neither => "neither is within the other",
        Relation::Unknown => "unknown",
    };
    let mut text = String::new(alloc);
    push_missed(alloc, &mut text, "only left ", &left.globs, &told.first)?;
    push_missed(alloc, &mut text, "only right", &right.globs, &told.second)?;
    text.push_str(word)?;
    text.push('\n')?;
    if !found.get_flag("quiet") {
        write(rt, text.as_bytes())?;
    }
    match told.relation {
        Relation::Equal => Ok(true),
        Relation::Unknown if !has_missed(&told.first) && !has_missed(&told.second) => Err(
            Fault::Printed,
        ),
        _ => Ok(false),
    }
}

/// Adds a line for each glob that other globs do not cover, with a shortest path that they miss.
fn push_missed(
    alloc: Global,
    text: &mut String,
    word: &str,
    globs: &[Glob],
    told: &[Coverage],
) -> Result<(), AllocError> {
    for (glob, told) in globs.iter().zip(told) {
        let glob = Shown(glob.glob().as_bytes());
        let line = match told {
            Coverage::Covered => continue,
            Coverage::Not(path) => format!(in alloc; "{word}  {}  ({glob})\n", Shown(path))?,
            Coverage::Unknown => format!(in alloc; "{word}  unknown  ({glob})\n")?,
        };
        text.push_str(line.as_str())?;
    }
    Ok(())
}

/// Returns whether some glob is not covered.
fn has_missed(told: &[Coverage]) -> bool {
    told.iter().any(|it| matches!(it, Coverage::Not(_)))
}
