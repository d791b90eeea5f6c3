//! Rows about globs, sets, paths and JSON values.

ghost use Rattle.std.specs.Prelude.{◌≡◌, IfOk};
ghost use Rattle.globset.specs.GlobMatches.{glob_matches};

use crate::column::{Columns, Escaped, IndexColumn, unescaped, unescaped_text, yes_or_no};
use crate::relations::{covered, overlapping};
use crate::row::RowFault;
use globset::{
    Candidate, Error, Glob, GlobBuilder, GlobMatcher, GlobSet, GlobSetBuilder, MatcherSearcher,
    ValueError, escape,
};
use serde_json::Value;
use std::alloc::Global;
use std::hash::{DefaultHasher, Hash, Hasher};

/// The least limit on the bytes of rows under which an automaton has some. They are so few that runs forget them and make them
/// again.
const FEW_ROWS: usize = 1 << 14;

/// The limit under which no automaton has rows: texts are read by sets of states.
const NO_ROWS: usize = 0;

/// The globs of the rows of a case so far, and sets of them: under the default limit, and under each other limit.
#[derive(Drop)]
pub struct Globs {
    alloc: Global,
    globs: Vec<Glob>,
    set: GlobSet,
    few_rows: GlobSet,
    no_rows: GlobSet,
}

/// A question to a set or a matcher about a path.
#[derive(Clone, Copy)]
enum PathQuestion {
    /// Whether it matches the path.
    Path,
    /// Whether it matches some path below the path, which is a directory.
    Below,
}

impl Globs {
    /// Returns the globs of a case without rows.
    pub fn new(alloc: Global) -> Globs {
        Globs {
            alloc,
            globs: Vec::new(alloc),
            set: GlobSet::empty(),
            few_rows: GlobSet::empty(),
            no_rows: GlobSet::empty(),
        }
    }

    /// Returns the result of a row's call, as columns. It leaves the columns of the expected result. Fails if the row cannot be
    /// read, or the call fails.
    pub fn returned(&mut self, columns: &mut Columns<'_>) -> Result<String, RowFault> {
        match columns.next()? {
            "read" => self.read(columns),
            "glob" => self.glob(columns),
            "add" => self.add(columns),
            "match" => self.is_match(columns),
            "path" => self.path(columns, PathQuestion::Path),
            "below" => self.path(columns, PathQuestion::Below),
            "equal" => self.equal(columns),
            "offset" => self.offset(columns),
            "parts" => self.parts(columns),
            "escape" => self.escape(columns),
            "value" => self.value(columns),
            "array" => self.array(columns),
            "covered" => covered(self.alloc, &self.globs, columns),
            "overlap" => overlapping(self.alloc, &self.globs, columns),
            _ => Err(RowFault::Row("no row is of this kind")),
        }
    }

    /// Reads a glob and copies it. Returns `reads`, and the copy's `regex()`; or `fails`, the error's kind and its text.
    fn read(&self, columns: &mut Columns<'_>) -> Result<String, RowFault> {
        match &read(self.alloc, columns)? {
            Ok(glob) => shown(self.alloc, &glob.clone()?),
            Err(error) => shown_error(self.alloc, error),
        }
    }

    /// Reads a glob, and adds it to the set. Returns `reads`, and its `regex()`; or `fails`, the error's kind and its text.
    fn glob(&mut self, columns: &mut Columns<'_>) -> Result<String, RowFault> {
        match read(self.alloc, columns)? {
            Ok(glob) => {
                let shown = shown(self.alloc, &glob)?;
                self.push(glob)?;
                Ok(shown)
            }
            Err(error) => shown_error(self.alloc, &error),
        }
    }

    /// Adds a glob to the set, and returns the length of the set.
    fn add(&mut self, columns: &mut Columns<'_>) -> Result<String, RowFault> {
        self.push(read(self.alloc, columns)??)?;
        Ok(format!(in self.alloc; "{}", self.set.len())?)
    }

    fn push(&mut self, glob: Glob) -> Result<(), Error> {
        self.globs.push(glob)?;
        self.set = GlobSet::new(self.alloc, &self.globs)?;
        self.push_limited()
    }

    /// Makes the sets of the globs under the limits that are not the default.
    fn push_limited(&mut self) -> Result<(), Error> {
        self.few_rows = limited_set(self.alloc, &self.globs, FEW_ROWS)?;
        self.no_rows = limited_set(self.alloc, &self.globs, NO_ROWS)?;
        Ok(())
    }

    /// Returns whether a glob matches a path, by its matcher and by a set of it alone, each of them under each limit.
    fn is_match(&self, columns: &mut Columns<'_>) -> Result<String, RowFault> {
        let mut alone = Globs::new(self.alloc);
        alone.push(read(self.alloc, columns)??)?;
        let answers = alone.path(columns, PathQuestion::Path)?;
        let answer = if answers.as_str() == "0\tyes\t0" {
            "yes"
        } else if answers.as_str() == "-\tno\t-" {
            "no"
        } else {
            // The set's matcher says something else.
            return Ok(answers);
        };
        Ok(String::from_str(self.alloc, answer)?)
    }

    /// Returns the set's answer about a path, and the indexes of the globs whose own matchers say yes. Sets and matchers under
    /// the other limits have to return the same: otherwise this returns all three answers.
    ///
    /// About a path a set answers which indexes it returns, and whether all globs match; about a directory, whether it matches
    /// some path below it.
    fn path(&self, columns: &mut Columns<'_>, question: PathQuestion) -> Result<String, RowFault> {
        let bytes = unescaped(self.alloc, columns.next()?)?;
        self.answers(&Candidate::from_bytes(&bytes), question)
    }

    fn answers(&self, path: &Candidate<'_>, question: PathQuestion) -> Result<String, RowFault> {
        let first = self.answer(&self.set, None, path, question)?;
        let few_rows = self.answer(&self.few_rows, Some(FEW_ROWS), path, question)?;
        let no_rows = self.answer(&self.no_rows, Some(NO_ROWS), path, question)?;
        if few_rows == first && no_rows == first {
            return Ok(first);
        }
        Ok(format!(in self.alloc; "{first}\t{few_rows}\t{no_rows}")?)
    }

    /// Returns the answers of a set and of matchers under a limit.
    fn answer(
        &self,
        set: &GlobSet,
        limit: Option<usize>,
        path: &Candidate<'_>,
        question: PathQuestion,
    ) -> Result<String, RowFault> {
        let of_set = answer_of_set(self.alloc, set, path, question)?;
        let of_each = self.matching(limit, path, question)?;
        Ok(format!(in self.alloc; "{of_set}\t{}", IndexColumn(&of_each))?)
    }

    /// Returns the indexes of the globs whose own matchers say yes.
    fn matching(
        &self,
        limit: Option<usize>,
        path: &Candidate<'_>,
        question: PathQuestion,
    ) -> Result<Vec<usize>, Error> {
        let mut indexes = Vec::new(self.alloc);
        for (i, glob) in self.globs.iter().enumerate() {
            if ask_under(self.alloc, limit, glob, path, question)? {
                indexes.push(i)?;
            }
        }
        Ok(indexes)
    }

    /// Returns whether two globs are equal, or the errors of two texts that are no globs. Equal globs must hash equally.
    fn equal(&self, columns: &mut Columns<'_>) -> Result<String, RowFault> {
        let one = read(self.alloc, columns)?;
        let other = read(self.alloc, columns)?;
        Ok(String::from_str(self.alloc, compared(&one, &other))?)
    }

    /// Returns the offset of the error of a text, or `-` if the text is a glob. The error's copy must have the same offset.
    fn offset(&self, columns: &mut Columns<'_>) -> Result<String, RowFault> {
        let Err(error) = read(self.alloc, columns)? else {
            return Ok(String::from_str(self.alloc, "-")?);
        };
        let copied = error.clone()?.offset();
        match error.offset() {
            Some(offset) if copied == Some(offset) => Ok(format!(in self.alloc; "{offset}")?),
            Some(_) => Ok(String::from_str(self.alloc, "the copy has another offset")?),
            None => Ok(String::from_str(self.alloc, "the error has no offset")?),
        }
    }

    /// Returns the basename and the extension of a path.
    fn parts(&self, columns: &mut Columns<'_>) -> Result<String, RowFault> {
        let bytes = unescaped(self.alloc, columns.next()?)?;
        let path = Candidate::from_bytes(&bytes);
        let (basename, ext) = (Escaped(path.basename()), Escaped(path.ext()));
        Ok(format!(in self.alloc; "{basename}\t{ext}")?)
    }

    /// Returns the escaped text.
    fn escape(&self, columns: &mut Columns<'_>) -> Result<String, RowFault> {
        let text = unescaped_text(self.alloc, columns.next()?)?;
        let glob = escape(self.alloc, text.as_str())?;
        Ok(format!(in self.alloc; "{}", Escaped(glob.as_bytes()))?)
    }

    /// Reads a glob from a JSON text. Returns `reads`, the glob and the JSON text that is written of it; or `fails` and the
    /// error.
    fn value(&self, columns: &mut Columns<'_>) -> Result<String, RowFault> {
        match &Glob::from_value(self.alloc, &json(self.alloc, columns)?) {
            Ok(glob) => written(self.alloc, glob, &glob.to_value()?),
            Err(error) => shown_value_error(self.alloc, error),
        }
    }

    /// Reads a set from a JSON text, instead of the set. Returns `reads` and its length; or `fails`, the index and the error.
    fn array(&mut self, columns: &mut Columns<'_>) -> Result<String, RowFault> {
        let value = json(self.alloc, columns)?;
        match GlobSet::from_value(self.alloc, &value) {
            Ok(set) => self.set = set,
            Err(error) => return shown_value_error(self.alloc, &error),
        }
        self.limit_elements(&value)?;
        Ok(format!(in self.alloc; "reads\t{}", self.set.len())?)
    }

    /// Makes the sets of the globs in a JSON array under the limits that are not the default.
    fn limit_elements(&mut self, value: &Value) -> Result<(), ValueError> {
        self.globs.clear();
        if let Value::Array(values) = value {
            for value in values {
                self.globs.push(Glob::from_value(self.alloc, value)?)?;
            }
        }
        self.push_limited()?;
        self.globs.clear();
        Ok(())
    }
}

/// Returns a set's answer about a path: the indexes that it returns, and whether all globs match it; or of a directory whether
/// it matches some path below it.
fn answer_of_set(
    alloc: Global,
    set: &GlobSet,
    path: &Candidate<'_>,
    question: PathQuestion,
) -> Result<String, RowFault> {
    if let PathQuestion::Below = question {
        let below = yes_or_no(set.can_match_below_candidate(path)?);
        return Ok(String::from_str(alloc, below)?);
    }
    let some = set.is_match_candidate(path)?;
    let all = yes_or_no(set.matches_all_candidate(path)?);
    let indexes = set.matches_candidate(alloc, path)?;
    if some == indexes.is_empty() {
        return Ok(String::from_str(alloc, "is_match and matches differ")?);
    }
    Ok(format!(in alloc; "{}\t{all}", IndexColumn(&indexes))?)
}

/// Returns the answer of a glob's matcher, under the default limit or another, about a path.
fn ask_under(
    alloc: Global,
    limit: Option<usize>,
    glob: &Glob,
    path: &Candidate<'_>,
    question: PathQuestion,
) -> Result<bool, Error>
    ensures path { question ≡ PathQuestion.Path
        → IfOk result (λ yes. yes ≡ glob_matches glob.now path.now) }
{
    match limit {
        Some(NO_ROWS) => ask(&glob.compile_matcher_with_limit(NO_ROWS)?, path, question),
        Some(limit) => search(
            alloc,
            &glob.compile_matcher_with_limit(limit)?,
            path,
            question,
        ),
        None => ask(&glob.compile_matcher()?, path, question),
    }
}

fn ask(matcher: &GlobMatcher, path: &Candidate<'_>, question: PathQuestion) -> Result<bool, Error>
    ensures path { question ≡ PathQuestion.Path
        → IfOk result (λ yes. yes ≡ glob_matches matcher.now path.now) }
{
    match question {
        PathQuestion::Path => matcher.is_match_candidate(path),
        PathQuestion::Below => matcher.can_match_below_candidate(path),
    }
}

/// Returns the answer of a matcher's searcher about a path. It has rows from its first path on, where the first calls on a
/// matcher make none.
fn search(
    alloc: Global,
    matcher: &GlobMatcher,
    path: &Candidate<'_>,
    question: PathQuestion,
) -> Result<bool, Error>
    ensures path { question ≡ PathQuestion.Path
        → IfOk result (λ yes. yes ≡ glob_matches matcher.now path.now) }
{
    let mut searcher = MatcherSearcher::new(alloc, matcher)?;
    Ok(match question {
        PathQuestion::Path => searcher.is_match(path),
        PathQuestion::Below => searcher.can_match_below(path),
    })
}

/// Returns the set of these globs under a limit.
fn limited_set(alloc: Global, globs: &[Glob], limit: usize) -> Result<GlobSet, Error> {
    let mut builder = GlobSetBuilder::new(alloc);
    builder.dfa_size_limit(limit);
    for glob in globs {
        builder.push(glob.clone()?)?;
    }
    builder.build()
}

/// Returns whether two globs, or their errors, are equal.
fn compared(one: &Result<Glob, Error>, other: &Result<Glob, Error>) -> &'static str {
    match (one, other) {
        (Ok(one), Ok(other)) if one == other && hash_of(one) != hash_of(other) => {
            "the globs are equal, and their hashes differ"
        }
        (Ok(one), Ok(other)) => yes_or_no(one == other),
        (Err(one), Err(other)) => yes_or_no(one == other),
        _ => "a glob and an error",
    }
}

fn hash_of(glob: &Glob) -> u64 {
    let mut state = DefaultHasher::new();
    glob.hash(&mut state);
    state.finish()
}

/// Returns `reads`, and the text of `regex()`.
fn shown(alloc: Global, glob: &Glob) -> Result<String, RowFault> {
    Ok(format!(in alloc; "reads\t{}", Escaped(glob.regex().as_bytes()))?)
}

/// Returns `fails`, the kind and the text.
fn shown_error(alloc: Global, error: &Error) -> Result<String, RowFault> {
    let kind = format!(in alloc; "{:?}", error.kind())?;
    let text = format!(in alloc; "{error}")?;
    let (kind, text) = (Escaped(kind.as_bytes()), Escaped(text.as_bytes()));
    Ok(format!(in alloc; "fails\t{kind}\t{text}")?)
}

/// Returns `fails`, the index or `-`, and the text.
fn shown_value_error(alloc: Global, error: &ValueError) -> Result<String, RowFault> {
    let text = format!(in alloc; "{error}")?;
    let text = Escaped(text.as_bytes());
    match error.index() {
        Some(index) => Ok(format!(in alloc; "fails\t{index}\t{text}")?),
        None => Ok(format!(in alloc; "fails\t-\t{text}")?),
    }
}

/// Returns `reads`, the glob and the JSON text that was written of it, if the glob is read back from this.
fn written(alloc: Global, glob: &Glob, value: &Value) -> Result<String, RowFault> {
    if Glob::from_value(alloc, value)? != *glob {
        return Ok(String::from_str(alloc, "another glob is read back")?);
    }
    let text = value.to_string(alloc)?;
    let (glob, text) = (Escaped(glob.glob().as_bytes()), Escaped(text.as_bytes()));
    Ok(format!(in alloc; "reads\t{glob}\t{text}")?)
}

/// Returns the JSON value of the next column.
fn json(alloc: Global, columns: &mut Columns<'_>) -> Result<Value, RowFault> {
    match Value::from_str(alloc, unescaped_text(alloc, columns.next()?)?.as_str()) {
        Ok(value) => Ok(value),
        Err(_) => Err(RowFault::Row("a column is not JSON")),
    }
}

/// Reads the glob of two columns: its options, and its text.
///
/// The options are the letters of those that differ from the default, or `-`: `i` is `case_insensitive`, `s`
/// `literal_separator`, `e` `empty_alternates`, `u` `allow_unclosed_class`, `w` `whole_character`, and `b` turns
/// `backslash_escape` off.
fn read(alloc: Global, columns: &mut Columns<'_>) -> Result<Result<Glob, Error>, RowFault> {
    let options = columns.next()?;
    let are_known = options.chars().all(|c| "iseubw".contains(c));
    if options != "-" && (options.is_empty() || !are_known) {
        return Err(RowFault::Row("an option is unknown"));
    }
    let text = unescaped_text(alloc, columns.next()?)?;
    Ok(
        GlobBuilder::new(text.as_str())
            .case_insensitive(options.contains('i'))
            .literal_separator(options.contains('s'))
            .empty_alternates(options.contains('e'))
            .allow_unclosed_class(options.contains('u'))
            .whole_character(options.contains('w'))
            .backslash_escape(!options.contains('b'))
            .build(alloc),
    )
}
