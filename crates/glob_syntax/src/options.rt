//! The options of a glob: how it is read, and which paths it matches.

/// The six options of a glob. Each glob has its own.
#[derive(Clone, Copy, Debug, PartialEq, Eq, Hash)]
pub struct Options {
    /// Whether each ASCII letter matches both of its cases.
    pub case_insensitive: bool,
    /// Whether `?` and `*` do not match `/`. A class that contains `/` still matches it.
    pub literal_separator: bool,
    /// Whether a `\` outside classes makes the next character plain. On by default; the other options are off.
    pub backslash_escape: bool,
    /// Whether the blank branches of a group are kept, such as the second branch of `{a,}`. A branch is blank if it has only
    /// groups whose branches are all blank.
    pub empty_alternates: bool,
    /// Whether a `[` that no `]` closes is a plain character. By default it is an error.
    pub allow_unclosed_class: bool,
    /// Whether `?` matches a whole character in UTF-8. By default it matches a byte. Everything else matches bytes in both cases.
    pub whole_character: bool,
}

impl Options {
    /// The default options.
    pub const DEFAULT: Options = Options {
        case_insensitive: false,
        literal_separator: false,
        backslash_escape: true,
        empty_alternates: false,
        allow_unclosed_class: false,
        whole_character: false,
    };
}
