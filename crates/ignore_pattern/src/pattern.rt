//! The pattern of a line.

ghost use Rattle.std.specs.Prelude.{◌≡◌, true, IfOk};
ghost use Rattle.ignore_pattern.specs.Patterns.{Pattern, pattern_of_line};
ghost use Rattle.ignore_pattern.specs.inner.Views.{are_inside, elements_of, pattern_of};

use crate::element::Element;
use crate::line::line_text;
use crate::reading::pattern_of_text;
use std::alloc::{AllocError, Global};
use std::marker::Model;

/// The pattern of a line of an ignore file.
#[derive(Debug, Drop)]
pub struct IgnorePattern {
    negated: bool,
    folders_only: bool,
    /// Whether it is matched against whole paths, and not against last components.
    whole: bool,
    elements: Vec<Element>,
}

impl Model for IgnorePattern {
    ghost Value = { Pattern };

    ghost view = { λ p. pattern_of p.negated p.folders_only p.whole p.elements.items };

    ghost invariant = { λ p. are_inside p.whole (elements_of p.elements.items) ≡ true };
}

impl IgnorePattern {
    /// Returns the pattern with these elements. Those of a pattern for last components match no `/`.
    pub(crate) fn new(
        negated: bool,
        folders_only: bool,
        whole: bool,
        elements: Vec<Element>,
    ) -> IgnorePattern
        requires { are_inside whole (elements_of elements.items) ≡ true }
        ensures { result ≡ pattern_of negated folders_only whole elements.items }
    {
        IgnorePattern {
            negated,
            folders_only,
            whole,
            elements,
        }
    }

    /// Returns whether the line begins with `!`: paths that it matches are kept, not ignored.
    pub fn is_negated(&self) -> bool
        ensures { result ≡ self.now.negated }
    {
        self.negated
    }

    /// Returns whether the line ends with `/`: it is for folders alone.
    pub fn is_folders_only(&self) -> bool
        ensures { result ≡ self.now.folders_only }
    {
        self.folders_only
    }

    /// Returns whether it is matched against whole paths, and not against last components.
    pub(crate) fn is_whole(&self) -> bool
        ensures value { result ≡ self.now.whole }
        ensures inside { are_inside self.now.whole self.now.elements ≡ true }
    {
        self.whole
    }

    /// Returns the elements.
    pub(crate) fn elements(&self) -> &[Element]
        ensures { elements_of result.now ≡ self.now.elements }
    {
        &self.elements
    }
}

/// Returns the pattern of a line, without its line feed.
///
/// Returns `None` if the line has no pattern, or a pattern that cannot be read: then git matches nothing with it.
///
/// This takes time and memory linear in the length of the line.
///
/// ```
/// let pattern = pattern_of_line(alloc, b"!build/")?;
/// assert!(pattern.is_some_and(|pattern| pattern.is_negated() && pattern.is_folders_only()));
/// assert!(pattern_of_line(alloc, b"# a comment")?.is_none());
/// ```
///
/// # Errors
///
/// Fails only if memory runs out.
pub fn pattern_of_line(alloc: Global, line: &[u8]) -> Result<Option<IgnorePattern>, AllocError>
    ensures { IfOk result (λ r. r ≡ pattern_of_line line.now) }
{
    pattern_of_text(alloc, line_text(line))
}
