//! Options of a glob as bits.

ghost use Rattle.std.specs.Prelude.{◌≡◌, ◌↔◌, IsTrue};
ghost use Rattle.c_objects.specs.Options.{glob_of, has_bit, IsKnown};

use globset::GlobBuilder;

const CASE_INSENSITIVE: u32 = 1;

const LITERAL_SEPARATOR: u32 = 2;

const NO_BACKSLASH_ESCAPE: u32 = 4;

const EMPTY_ALTERNATES: u32 = 8;

const ALLOW_UNCLOSED_CLASS: u32 = 16;

const WHOLE_CHARACTER: u32 = 32;

/// Returns whether each bit stands for an option.
pub fn are_known(options: u32) -> bool
    ensures { IsTrue result ↔ IsKnown options }
{
    options < 64
}

/// Returns a builder of a glob with this text and the options that the bits stand for.
pub fn builder_of<'a>(text: &'a str, options: u32) -> GlobBuilder<'a>
    ensures { result ≡ glob_of text.now options }
{
    let mut builder = GlobBuilder::new(text);
    builder
        .case_insensitive(has(options, CASE_INSENSITIVE))
        .literal_separator(has(options, LITERAL_SEPARATOR))
        .backslash_escape(!has(options, NO_BACKSLASH_ESCAPE))
        .empty_alternates(has(options, EMPTY_ALTERNATES))
        .allow_unclosed_class(has(options, ALLOW_UNCLOSED_CLASS))
        .whole_character(has(options, WHOLE_CHARACTER));
    builder
}

fn has(options: u32, bit: u32) -> bool
    ensures { result ≡ has_bit options bit }
{
    options & bit != 0
}
