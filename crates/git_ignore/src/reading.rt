//! Rules as they are read, line by line.

ghost use Rattle.std.specs.Prelude.{◌≡◌, ◌==◌, ◌++◌, IfOk, OnOk};
ghost use Rattle.std.specs.List.{list_all};
ghost use Rattle.std.specs.Option.{option_copied};
ghost use Rattle.ignore_pattern.specs.Lines.{lines_of, without_byte_order_mark};
ghost use Rattle.ignore_pattern.specs.Patterns.{pattern_of_line};
ghost use Rattle.git_ignore.specs.Rules.{is_unread, lacks_pattern, line_at, lines_of_rules, patterns_of, rules_of, unread_lines_of};
ghost use Rattle.git_ignore.specs.inner.Entries.{AddsRules, ArePartsOf, rule_at, unread_at};

use crate::entry::RuleEntry;
use ignore_pattern::{IgnorePattern, line_text, pattern_of_line};
use memchr::memchr;
use std::alloc::{AllocError, Global};

/// The bytes that some editors put at the start of a text.
const BYTE_ORDER_MARK: &[u8] = b"\xef\xbb\xbf";

/// The rules of a file, as far as it was read: their patterns, and an entry for each.
#[derive(Drop)]
pub struct FileRules {
    pub patterns: Vec<IgnorePattern>,
    pub entries: Vec<RuleEntry>,
    /// The numbers of the lines that git cannot read.
    pub unread: Vec<usize>,
}

impl FileRules {
    /// Reads the rules of an ignore file, given by its bytes.
    pub fn read(alloc: Global, file: &[u8]) -> Result<FileRules, AllocError>
        ensures rules { IfOk result
            (λ r. ArePartsOf (rules_of file.now) r.patterns.items r.entries.items) }
        ensures unread { IfOk result (λ r. r.unread.items ≡ unread_lines_of file.now) }
    {
        let mut rules = FileRules {
            patterns: Vec::new(alloc),
            entries: Vec::new(alloc),
            unread: Vec::new(alloc),
        };
        let mut rest = after_mark(file);
        let mut number = 1;
        while let Some(end) = memchr(b'\n', rest) {
            rules.push_line(alloc, number, &rest[..end])?;
            rest = &rest[end + 1..];
            number += 1;
        }
        rules.push_line(alloc, number, rest)?;
        Ok(rules)
    }

    /// Adds the rule of a line, if there is any, or else the line's number, if git cannot read it.
    fn push_line(&mut self, alloc: Global, number: usize, line: &[u8]) -> Result<(), AllocError>
        ensures rules { OnOk result
            (AddsRules (rule_at number (pattern_of_line line.now)) self.old.patterns.items
            self.old.entries.items self.new.patterns.items self.new.entries.items) }
        ensures unread { OnOk result
            (self.new.unread.items
            ≡ self.old.unread.items ++ unread_at number (is_unread line.now)) }
    {
        let Some(pattern) = pattern_of_line(alloc, line)? else {
            if lacks_pattern(line_text(line)) {
                return Ok(());
            }
            self.unread.push(number)?;
            return Ok(());
        };
        self.entries.push(RuleEntry::new(number, &pattern))?;
        self.patterns.push(pattern)?;
        Ok(())
    }
}

/// The rules of an ignore file, in the order of their lines.
#[derive(Drop)]
pub struct RulePatterns {
    /// The pattern of each.
    pub patterns: Vec<IgnorePattern>,
    /// The number of the line of each, counted from 1.
    pub lines: Vec<usize>,
}

/// Reads the rules of an ignore file, given by its bytes, to ask which paths their patterns match. It takes time and memory as
/// [`crate::Rules::new`] does. Fails only if memory runs out.
///
/// ```rust
/// use git_ignore::rule_patterns;
///
/// let rules = rule_patterns(alloc, b"# What a build makes\n*.o\n\n!a.o\n")?;
/// assert_eq!(rt; rules.lines.as_slice(), [2, 4].as_slice());
/// assert!(rt; rules.patterns[1].is_negated());
/// ```
pub fn rule_patterns(alloc: Global, file: &[u8]) -> Result<RulePatterns, AllocError>
    ensures patterns { IfOk result
        (λ read. read.patterns.items ≡ patterns_of (rules_of file.now)) }
    ensures lines { IfOk result (λ read. read.lines.items ≡ lines_of_rules (rules_of file.now)) }
{
    let read = FileRules::read(alloc, file)?;
    let mut lines = Vec::new(alloc);
    for entry in &read.entries {
        lines.push(entry.line)?;
    }
    let patterns = read.patterns;
    Ok(RulePatterns { patterns, lines })
}

/// Returns the bytes of a file without a byte order mark at their start.
pub fn after_mark(bytes: &[u8]) -> &[u8]
    ensures { result.now ≡ without_byte_order_mark bytes.now }
{
    match bytes.strip_prefix(BYTE_ORDER_MARK) {
        Some(rest) => rest,
        None => bytes,
    }
}

/// Returns the line with this number, counted from 1, if there is one.
pub fn line_at(bytes: &[u8], number: usize) -> Option<&[u8]>
    ensures { option_copied result ≡ line_at (lines_of bytes.now) number }
{
    let mut left = number.checked_sub(1)?;
    let mut rest = bytes;
    while left > 0 {
        rest = &rest[memchr(b'\n', rest)? + 1..];
        left -= 1;
    }
    match memchr(b'\n', rest) {
        Some(end) => Some(&rest[..end]),
        None => Some(rest),
    }
}

/// Returns whether the text of a line has no pattern to read: it is a comment, or has nothing but slashes after its `!`, if one is
/// there.
fn lacks_pattern(text: &[u8]) -> bool
    ensures { result ≡ lacks_pattern text.now }
{
    match text {
        [b'#', ..] => true,
        [b'!', after @ ..] => has_slashes_alone(after),
        _ => has_slashes_alone(text),
    }
}

/// Returns whether all bytes are slashes.
fn has_slashes_alone(bytes: &[u8]) -> bool
    ensures { result ≡ list_all (λ c. c == 47) bytes.now }
{
    bytes.iter().all(|byte| *byte == b'/')
}
