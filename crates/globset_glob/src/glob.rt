//! Globs.

ghost use Rattle.std.specs.Prelude.{◌≡◌, ◌==◌, ◌≤◌, ◌*◌, ◌↔◌, ◌++◌, ℕ, List, Some, Ok, IfOk, IfErr, IsOkUnless, IsTrue, length, string_bytes};
ghost use Rattle.std.specs.Cmp.{partial_equiv_from_equiv};
ghost use Rattle.std.specs.Fmt.{styled_text};
ghost use Rattle.std.specs.Hash as fed;
ghost use Rattle.std.specs.Str.{chars};
ghost use Rattle.glob_syntax.specs.Reading.{reading};
ghost use Rattle.glob_syntax.specs.FlatTokens.{IsNested};
ghost use Rattle.glob_syntax.specs.StatesPerByte.{states_per_byte};
ghost use Rattle.glob_syntax.specs.Views.{flats, tokens_of};
ghost use Rattle.glob_syntax.specs.inner.Weight.{weight};
ghost use Rattle.std.specs.Hash.{and-Alike, on_Alike, same_Alike};
ghost use Rattle.std.proofs.lemmas.Cmp.{and_equiv, on_equiv, nat_list_eq_equiv};
ghost use Rattle.std.proofs.lemmas.Slice.Eq.{bytes_eq-Decides};
ghost use Rattle.glob_syntax.specs.contracts.options.OptionsEq.TheImpl.Laws.{laws-law};
ghost use Rattle.glob_syntax.specs.contracts.options.OptionsHash.TheImpl.Laws.{respects_eq-law};
ghost use Rattle.glob_text.specs.inner.Equality.{same_glob};
ghost use Rattle.glob_text.specs.Errors.{out_of_memory, IsParseErrorOf};
ghost use Rattle.glob_text.specs.GlobMatches.{GlobValue, tokens_of_glob, glob_matches};

use crate::builder::GlobBuilder;
use crate::matcher::GlobMatcher;
use engine::DEFAULT_DFA_SIZE_LIMIT;
use glob_syntax::{Options, Token, copy_of};
use glob_text::{Error, regex_of_tokens, tokens_of_text};
use std::alloc::{AllocError, Global};
use std::fmt;
use std::hash::{Hash, Hasher};
use std::marker::Model;

/// A glob pattern that was read.
///
/// Contracts see a glob as its text and its options. Every glob has tokens, which the text and the options determine.
///
/// ```rust
/// use globset::{Glob, GlobBuilder};
///
/// let glob = Glob::new(alloc, "src/*.rs")?;
/// assert_eq!(rt; glob.glob(), "src/*.rs");
/// assert!(rt; glob.compile_matcher()?.is_match("src/lib.rs")?);
/// assert!(rt; glob == Glob::new(alloc, "src/*.rs")?);
/// assert!(rt; glob != GlobBuilder::new("src/*.rs").literal_separator(true).build(alloc)?);
/// ```
#[derive(Drop)]
pub struct Glob {
    text: String,
    options: Options,
    tokens: Vec<Token>,
    regex: String,
}

impl Model for Glob {
    ghost use Rattle.std.specs.Prelude.{◌≡◌, ◌≤◌, ◌*◌, Ok, length, string_bytes};
    ghost use Rattle.std.specs.Str.{chars};
    ghost use Rattle.glob_text.specs.GlobMatches.{GlobValue};
    ghost use Rattle.glob_syntax.specs.Reading.{reading};
    ghost use Rattle.glob_text.specs.RegexText.{regex_text};
    ghost use Rattle.glob_syntax.specs.FlatTokens.{IsNested};
    ghost use Rattle.glob_syntax.specs.StatesPerByte.{states_per_byte};
    ghost use Rattle.glob_syntax.specs.Views.{flats, tokens_of};
    ghost use Rattle.glob_syntax.specs.inner.Weight.{weight};
    ghost use Rattle.glob_syntax.specs.inner.WellFormed.{AreWellFormed};

    ghost Value = { GlobValue };

    ghost view = { λ g. record { text = string_bytes g.text; options = g.options } };

    ghost invariant = { λ g. record {
      read : reading g.options (chars (string_bytes g.text)) ≡ Ok (tokens_of g.tokens.items);
      nested : IsNested (flats g.tokens.items);
      well_formed : AreWellFormed (tokens_of g.tokens.items);
      weight : weight g.options (tokens_of g.tokens.items) ≤ states_per_byte g.options * length (string_bytes g.text);
      regex : string_bytes g.regex ≡ regex_text g.options (tokens_of g.tokens.items);
    } };
}

impl Glob {
    ghost use Rattle.glob_text.specs.GlobMatches.{IsRead, default_glob, default_options};
    ghost use Rattle.glob_text.specs.RegexText.{regex_text};
    ghost use Rattle.glob_text.specs.RegexDenotes.{HasExpression};

    /// Reads a glob under the default options: `\` escapes, and the other options are off.
    ///
    /// # Errors
    ///
    /// Fails if the text is not a glob, or if memory runs out. The error of a text holds the text, and the kind and the offset of
    /// the first error in it.
    pub fn new(alloc: Global, glob: &str) -> Result<Glob, Error>
        ensures ok { IfOk result (λ g. g ≡ default_glob glob.now) }
        ensures read { IfOk result IsRead }
        ensures err { IfErr result (IsParseErrorOf default_options glob.now) }
    {
        GlobBuilder::new(glob).build(alloc)
    }

    /// Reads a glob under the default options, as [`Glob::new`] does, and returns the same errors.
    pub fn from_str(alloc: Global, glob: &str) -> Result<Glob, Error>
        ensures ok { IfOk result (λ g. g ≡ default_glob glob.now) }
        ensures read { IfOk result IsRead }
        ensures err { IfErr result (IsParseErrorOf default_options glob.now) }
    {
        Glob::new(alloc, glob)
    }

    /// Returns the text that the glob was read from.
    pub fn glob(&self) -> &str
        ensures text { result.now ≡ self.now.text }
        ensures read { IsRead self.now }
    {
        self.text.as_str()
    }

    /// Returns the text of a regular expression that matches the same paths as the glob.
    ///
    /// The text is `(?-u)`, then `(?i)` under `case_insensitive`, `^`, the tokens, and `$`. It is for engines that match
    /// bytes. `.` has to match any byte. In many engines it does not match a line feed, which the text does not change, so
    /// such an engine needs its option for that. The characters `\ . + * ? ( ) | [ ] { } ^ $ # & - ~` of the glob are
    /// written after a `\`, in classes too. A byte above 7F is written as `\x` and two digits. Under `whole_character` a `?` is
    /// a group with a branch for each row of Table 3-7 of the Unicode Standard, which has the bytes of characters in UTF-8.
    ///
    /// ```rust
    /// use globset::Glob;
    ///
    /// let glob = Glob::new(alloc, "a-b/**/*.{rs,é}")?;
    /// assert_eq!(rt; glob.regex(), r"(?-u)^a\-b(?:/|/.*/).*\.(?:rs|\xc3\xa9)$");
    /// ```
    pub fn regex(&self) -> &str
        ensures text { result.now ≡ regex_text self.now.options (tokens_of_glob self.now) }
        ensures denotes { HasExpression (glob_matches self.now) result.now }
    {
        self.regex.as_str()
    }

    /// Returns an equal glob.
    pub fn clone(&self) -> Result<Glob, Error>
        ensures ok { IfOk result (λ g. g ≡ self.now) }
        ensures err { IsOkUnless result out_of_memory }
    {
        Ok(Clone::clone(self)?)
    }

    /// Returns a matcher for an equal glob.
    ///
    /// If the glob's literals decide alone, it copies them. Otherwise it makes an automaton, in time and memory linear in the
    /// glob's text. Rows of this are made by calls that match, and those that the matcher keeps are limited by
    /// [`DEFAULT_DFA_SIZE_LIMIT`].
    pub fn compile_matcher(&self) -> Result<GlobMatcher, Error>
        ensures ok { IfOk result (λ m. m ≡ self.now) }
        ensures err { IsOkUnless result out_of_memory }
    {
        self.compile_matcher_with_limit(DEFAULT_DFA_SIZE_LIMIT)
    }

    /// Returns a matcher for an equal glob, as [`Glob::compile_matcher`] does, which keeps rows of at most `dfa_size_limit` bytes
    /// between calls.
    ///
    /// The limit trades memory for time, and changes no answer. It means what `GlobSetBuilder::dfa_size_limit` in `globset` says
    /// of a set with one automaton, and what that says of a searcher is said of a [`MatcherSearcher`](crate::MatcherSearcher).
    /// Where it is too low for rows, each byte of a path takes a step for each current state of the automaton, and calls without a
    /// searcher allocate for each path. A glob whose literals decide alone has no automaton under any limit. The limit of
    /// [`Glob::compile_matcher`] is [`DEFAULT_DFA_SIZE_LIMIT`].
    ///
    /// ```rust
    /// use globset::Glob;
    ///
    /// let glob = Glob::new(alloc, "src/**/*.rs")?;
    /// let matcher = glob.compile_matcher_with_limit(0)?;
    /// assert!(rt; matcher.is_match("src/a/lib.rs")? && !matcher.is_match("src/a/lib.c")?);
    /// ```
    pub fn compile_matcher_with_limit(&self, dfa_size_limit: usize) -> Result<GlobMatcher, Error>
        ensures ok { IfOk result (λ m. m ≡ self.now) }
        ensures err { IsOkUnless result out_of_memory }
    {
        GlobMatcher::new(self.clone()?, dfa_size_limit)
    }

    /// Reads a text under these options.
    pub(crate) fn read(alloc: Global, options: Options, text: &str) -> Result<Glob, Error>
        ensures ok { IfOk result (λ g. g ≡ record { text = text.now; options = options }) }
        ensures read { IfOk result IsRead }
        ensures err { IfErr result (IsParseErrorOf options text.now) }
    {
        let tokens = tokens_of_text(alloc, options, text)?;
        let regex = regex_of_tokens(alloc, options, &tokens)?;
        let text = String::from_str(alloc, text)?;
        Ok(Glob {
            text,
            options,
            tokens,
            regex,
        })
    }

    /// Returns the allocator that holds the glob.
    pub(crate) fn allocator(&self) -> Global {
        *self.text.allocator()
    }
}

/// An equal glob. The error says that memory ran out.
impl Clone for Glob {
    ghost is_clone = { λ g h. h ≡ g };

    fn clone(&self) -> Result<Glob, AllocError> {
        let tokens = copy_of(self.allocator(), &self.tokens)?;
        Ok(Glob {
            text: self.text.clone()?,
            options: self.options,
            tokens,
            regex: self.regex.clone()?,
        })
    }
}

/// Returns the flat tokens that the glob's text was read as under its options.
pub fn flat_tokens_of(glob: &Glob) -> &[Token]
    ensures read { reading glob.now.options (chars glob.now.text) ≡ Ok (tokens_of result.now) }
    ensures tokens { tokens_of_glob glob.now ≡ tokens_of result.now }
    ensures nested { IsNested (flats result.now) }
    ensures weight { weight glob.now.options (tokens_of result.now)
        ≤ states_per_byte glob.now.options * length glob.now.text }
{
    &glob.tokens
}

/// Returns the text that the glob was read from.
pub fn text_of(glob: &Glob) -> &String
    ensures { string_bytes result.now ≡ glob.now.text }
{
    &glob.text
}

/// Returns the options that the glob was read under.
pub fn options_of(glob: &Glob) -> Options
    ensures { result ≡ glob.now.options }
{
    glob.options
}

/// Globs are equal if their texts and their options are. Equal globs have the same tokens and match the same paths. It
/// allocates nothing.
impl PartialEq for Glob {
    ghost eq = { same_glob };

    ghost laws = { partial_equiv_from_equiv (and_equiv (on_equiv (λ g. g.text) nat_list_eq_equiv) (on_equiv (λ g. g.options) laws-law)) };

    #[tactic(auto, using(glob_text::proofs::lemmas::GlobEquality::equal_globs))]
    fn eq(&self, other: &Glob) -> bool
        ensures result { result ≡ same_glob self.now other.now }
        ensures fields { IsTrue result ↔ (self.now ≡ other.now) }
        ensures tokens { IsTrue result → tokens_of_glob self.now ≡ tokens_of_glob other.now }
        ensures paths { IsTrue result → (path : List ℕ)
            → glob_matches self.now path ≡ glob_matches other.now path }
    {
        self.text == other.text && self.options == other.options
    }
}

/// Each glob is equal to itself.
impl Eq for Glob {
    ghost laws = { and_equiv (on_equiv (λ g. g.text) nat_list_eq_equiv) (on_equiv (λ g. g.options) laws-law) };
}

/// Hashes the text and the options, so equal globs have equal hashes. It allocates nothing.
impl Hash for Glob {
    ghost hash_input = { λ g. fed.str g.text ++ ⟦<Options as Hash>⟧.hash_input g.options };

    ghost respects_eq = { (and-Alike (on_Alike (λ (g : GlobValue). g.text) (same_Alike fed.str bytes_eq-Decides))
        (on_Alike (λ (g : GlobValue). g.options) (record { fed = respects_eq-law }))).fed };

    fn hash<H: Hasher>(&self, state: &mut H) {
        self.text.hash(state);
        self.options.hash(state);
    }
}

/// The glob's text, padded as a `&str` is.
impl fmt::Display for Glob {
    ghost output = { λ g. Some g.text };

    ghost styled_output = { λ g s. Some (styled_text s g.text) };

    fn fmt<W: fmt::Write>(&self, f: &mut fmt::Formatter<W>) -> fmt::Result {
        f.pad(self.text.as_str())
    }
}

/// `Glob("<text>")`
impl fmt::Debug for Glob {
    fn fmt<W: fmt::Write>(&self, f: &mut fmt::Formatter<W>) -> fmt::Result {
        f.debug_tuple("Glob").field(&self.text).finish()
    }
}
