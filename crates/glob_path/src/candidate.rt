//! Paths that are matched by globs, and texts as paths.

ghost use Rattle.std.specs.Prelude.{◌≡◌, ℕ, List, ⊤, string_bytes};
ghost use Rattle.glob_path.specs.PathParts.{basename_of, extension_of};

use crate::path_parts::{basename, extension};
use bstr::ByteSlice;
use std::alloc::AllocError;
use std::fmt;
use std::marker::Model;

/// A path that can be matched by many globs.
///
/// Contracts see a candidate as the path's bytes. A path is a list of bytes, UTF-8 or not. Its only separator is `/`, and
/// it is not changed before matching. `path`, `basename` and `ext` return slices of the bytes that the candidate was made
/// from, not copies, so they may be used as long as those bytes, also after the candidate is dropped.
///
/// ```rust
/// use globset::{Candidate, Glob};
///
/// let path = Candidate::from_bytes(b"src/a.b.c");
/// assert_eq!(rt; path.path(), b"src/a.b.c".as_slice());
/// assert_eq!(rt; path.basename(), b"a.b.c".as_slice());
/// assert_eq!(rt; path.ext(), b".c".as_slice());
/// assert!(rt; Glob::new(alloc, "*.c")?.compile_matcher()?.is_match_candidate(&path)?);
/// ```
#[derive(Drop)]
pub struct Candidate<'a> {
    path: &'a [u8],
}

impl<'a> Model for Candidate<'a> {
    ghost Value = { List ℕ };

    ghost view = { λ c. c.path.now };
}

impl<'a> Candidate<'a> {
    /// Returns a candidate for the path with this text. It reads none of the path and allocates nothing.
    pub fn new(path: &'a str) -> Candidate<'a>
        ensures { result ≡ path.now }
    {
        Candidate::from_bytes(path.as_bytes())
    }

    /// Returns a candidate for the path with these bytes, UTF-8 or not. It reads none of them and allocates nothing.
    ///
    /// A text and its bytes give equal candidates: contracts see the same value, so every call returns the same for both.
    pub fn from_bytes(path: &'a [u8]) -> Candidate<'a>
        ensures { result ≡ path.now }
    {
        Candidate { path }
    }

    /// Returns the path's bytes, as given to the candidate.
    pub fn path(&self) -> &'a [u8]
        ensures { result.now ≡ self.now }
    {
        self.path
    }

    /// Returns the basename: the bytes after the path's last `/`, or the whole path if it has no `/`. If these bytes are
    /// `..`, the basename is empty.
    ///
    /// Each call searches the path from its end to its last `/`, and reads no byte before that.
    pub fn basename(&self) -> &'a [u8]
        ensures { result.now ≡ basename_of self.now }
    {
        basename(self.path)
    }

    /// Returns the extension: the bytes of the basename from its last `.` on, or nothing if it has no `.`.
    ///
    /// Each call finds the basename as [`basename`](Candidate::basename) does, and then searches it from its end to its
    /// last `.`.
    pub fn ext(&self) -> &'a [u8]
        ensures { result.now ≡ extension_of self.now }
    {
        extension(self.basename())
    }
}

/// A candidate for the same bytes. It allocates nothing, and cannot fail.
impl<'a> Clone for Candidate<'a> {
    ghost is_clone = { λ c d. d ≡ c };

    ghost is_infallible = { λ _. ⊤ };

    fn clone(&self) -> Result<Candidate<'a>, AllocError> {
        Ok(Candidate { path: self.path })
    }
}

/// `Candidate { path: "<path>", basename: "<basename>", ext: "<extension>" }`
impl<'a> fmt::Debug for Candidate<'a> {
    fn fmt<W: fmt::Write>(&self, f: &mut fmt::Formatter<W>) -> fmt::Result {
        f.debug_struct("Candidate")
            .field("path", &self.path.as_bstr())
            .field("basename", &self.basename().as_bstr())
            .field("ext", &self.ext().as_bstr())
            .finish()
    }
}

/// A text that can be matched as a path.
///
/// A `Path`, an `OsStr` and the like have no text of their own. Pass their text, or pass their bytes to
/// [`Candidate::from_bytes`](crate::Candidate::from_bytes).
///
/// ```rust
/// use globset::Glob;
///
/// let matcher = Glob::new(alloc, "*.c")?.compile_matcher()?;
/// let path = String::from_str(alloc, "a.c")?;
/// assert!(rt; matcher.is_match("a.c")? && matcher.is_match(&path)? && matcher.is_match(path)?);
/// ```
pub trait AsPath: Drop {
    ghost text: { Self → List ℕ };

    /// Returns the path's text, which is the same at each call.
    fn path_text(&self) -> &str
        ensures { result.now ≡ text self.now };
}

impl AsPath for &str {
    ghost text = { λ s. s.now };

    fn path_text(&self) -> &str {
        *self
    }
}

impl AsPath for String {
    ghost text = { λ s. string_bytes s };

    fn path_text(&self) -> &str {
        self.as_str()
    }
}

impl AsPath for &String {
    ghost text = { λ s. string_bytes s.now };

    fn path_text(&self) -> &str {
        self.as_str()
    }
}
