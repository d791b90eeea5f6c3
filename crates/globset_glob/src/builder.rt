//! The text and the options of a glob, before it is read.

ghost use Rattle.std.specs.Prelude.{◌≡◌, IfOk, IfErr, ⊤};
ghost use Rattle.glob_text.specs.Errors.{IsParseErrorOf};
ghost use Rattle.glob_text.specs.GlobMatches.{IsRead, default_glob};

use crate::glob::Glob;
use glob_syntax::Options;
use glob_text::Error;
use std::alloc::{AllocError, Global};
use std::marker::Model;

/// Sets the options of a glob, and reads the glob under them.
///
/// ```rust
/// use globset::GlobBuilder;
///
/// let glob = GlobBuilder::new("*.RS").case_insensitive(true).literal_separator(true).build(alloc)?;
/// let matcher = glob.compile_matcher()?;
/// assert!(rt; matcher.is_match("lib.rs")?);
/// assert!(rt; !matcher.is_match("src/lib.rs")?);
/// ```
#[derive(Debug, Drop)]
pub struct GlobBuilder<'a> {
    text: &'a str,
    options: Options,
}

impl<'a> Model for GlobBuilder<'a> {
    ghost use Rattle.glob_text.specs.GlobMatches.{GlobValue};

    ghost Value = { GlobValue };

    ghost view = { λ b. record { text = b.text.now; options = b.options } };
}

impl<'a> GlobBuilder<'a> {
    /// Returns a builder with this text and the default options: `backslash_escape` is on, and the others are off.
    pub fn new(text: &'a str) -> GlobBuilder<'a>
        ensures { result ≡ default_glob text.now }
    {
        GlobBuilder {
            text,
            options: Options::DEFAULT,
        }
    }

    /// Sets whether ASCII letters match in both cases. Off by default.
    pub fn case_insensitive(&mut self, yes: bool) -> &mut GlobBuilder<'a>
        ensures same_reference { result.ghost_name ≡ self.entry.ghost_name }
        ensures value { result.now
            ≡ record self.old { options = record self.old.options { case_insensitive = yes } } }
    {
        self.options.case_insensitive = yes;
        self
    }

    /// Sets whether `?` and `*` match any byte except `/`. If it is off, they match `/` too. A class that contains `/` matches
    /// it in both cases. Off by default.
    pub fn literal_separator(&mut self, yes: bool) -> &mut GlobBuilder<'a>
        ensures same_reference { result.ghost_name ≡ self.entry.ghost_name }
        ensures value { result.now
            ≡ record self.old { options = record self.old.options { literal_separator = yes } } }
    {
        self.options.literal_separator = yes;
        self
    }

    /// Sets whether a `\` outside classes escapes the next character, which then matches itself. On by default.
    ///
    /// ```rust
    /// use globset::{Glob, GlobBuilder};
    ///
    /// let escaped = Glob::new(alloc, r"a\*")?.compile_matcher()?;
    /// assert!(rt; escaped.is_match("a*")? && !escaped.is_match(r"a\b")?);
    /// let plain = GlobBuilder::new(r"a\*").backslash_escape(false).build(alloc)?.compile_matcher()?;
    /// assert!(rt; plain.is_match(r"a\b")? && !plain.is_match("a*")?);
    /// ```
    pub fn backslash_escape(&mut self, yes: bool) -> &mut GlobBuilder<'a>
        ensures same_reference { result.ghost_name ≡ self.entry.ghost_name }
        ensures value { result.now
            ≡ record self.old { options = record self.old.options { backslash_escape = yes } } }
    {
        self.options.backslash_escape = yes;
        self
    }

    /// Sets whether a group keeps its empty branches, as the second of `{a,}`, which then match the empty text. A branch
    /// that contains only groups of empty branches counts as empty. If it is off, empty branches are dropped. Off by
    /// default.
    ///
    /// ```rust
    /// use globset::{Glob, GlobBuilder};
    ///
    /// let dropped = Glob::new(alloc, "lib{,64}")?.compile_matcher()?;
    /// assert!(rt; dropped.is_match("lib64")? && !dropped.is_match("lib")?);
    /// let kept = GlobBuilder::new("lib{,64}").empty_alternates(true).build(alloc)?.compile_matcher()?;
    /// assert!(rt; kept.is_match("lib64")? && kept.is_match("lib")?);
    /// ```
    pub fn empty_alternates(&mut self, yes: bool) -> &mut GlobBuilder<'a>
        ensures same_reference { result.ghost_name ≡ self.entry.ghost_name }
        ensures value { result.now
            ≡ record self.old { options = record self.old.options { empty_alternates = yes } } }
    {
        self.options.empty_alternates = yes;
        self
    }

    /// Sets whether a `[` with no closing `]` matches itself. If it is off, such a `[` is an error. Off by default.
    ///
    /// ```rust
    /// use globset::{Glob, GlobBuilder};
    ///
    /// assert!(rt; Glob::new(alloc, "a[*").is_err());
    /// let glob = GlobBuilder::new("a[*").allow_unclosed_class(true).build(alloc)?;
    /// assert!(rt; glob.compile_matcher()?.is_match("a[b")?);
    /// ```
    pub fn allow_unclosed_class(&mut self, yes: bool) -> &mut GlobBuilder<'a>
        ensures same_reference { result.ghost_name ≡ self.entry.ghost_name }
        ensures value { result.now
            ≡ record self.old { options = record self.old.options { allow_unclosed_class = yes } } }
    {
        self.options.allow_unclosed_class = yes;
        self
    }

    /// Sets whether `?` matches a whole character: the bytes of a Unicode scalar value in UTF-8, except `/` under
    /// `literal_separator`. If it is off, `?` matches a byte. `*`, classes and all else match bytes in both cases. Off by
    /// default.
    ///
    /// ```rust
    /// use globset::{Glob, GlobBuilder};
    ///
    /// let bytes = Glob::new(alloc, "?")?.compile_matcher()?;
    /// assert!(rt; bytes.is_match("e")? && !bytes.is_match("é")?);
    /// let characters = GlobBuilder::new("?").whole_character(true).build(alloc)?.compile_matcher()?;
    /// assert!(rt; characters.is_match("e")? && characters.is_match("é")?);
    /// ```
    pub fn whole_character(&mut self, yes: bool) -> &mut GlobBuilder<'a>
        ensures same_reference { result.ghost_name ≡ self.entry.ghost_name }
        ensures value { result.now
            ≡ record self.old { options = record self.old.options { whole_character = yes } } }
    {
        self.options.whole_character = yes;
        self
    }

    /// Reads the glob under its options, in time linear in the length of its text. The builder does not change.
    ///
    /// # Errors
    ///
    /// Fails if the text is not a glob, or if memory runs out. The error of a text holds the text, and the kind and the offset of
    /// the first error in it.
    pub fn build(&self, alloc: Global) -> Result<Glob, Error>
        ensures ok { IfOk result (λ g. g ≡ self.now) }
        ensures read { IfOk result IsRead }
        ensures err { IfErr result (IsParseErrorOf self.now.options self.now.text) }
    {
        Glob::read(alloc, self.options, self.text)
    }
}

/// A builder with the same text and options. It allocates nothing, and cannot fail.
impl<'a> Clone for GlobBuilder<'a> {
    ghost is_clone = { λ b c. c ≡ b };

    ghost is_infallible = { λ _. ⊤ };

    fn clone(&self) -> Result<GlobBuilder<'a>, AllocError> {
        Ok(GlobBuilder {
            text: self.text,
            options: self.options,
        })
    }
}
