//! Laws of reading and of characters, each as the contract of a function that does nothing.

ghost use Rattle.glob_syntax.specs.Laws.{CharactersAreScalars, ErrorsAgree, ParseErrorsStay};

/// Without `allow_unclosed_class`, a text whose error is `InvalidRange` or `UnopenedAlternates` keeps that very error with any
/// text after it.
pub fn parse_errors_stay()
    ensures { ParseErrorsStay }
{}

/// The error whose offset a text has is the error that reading the text returns.
pub fn errors_agree()
    ensures { ErrorsAgree }
{}

/// Bytes are a character exactly if std writes some Unicode scalar value as these bytes.
pub fn characters_are_scalars()
    ensures { CharactersAreScalars }
{}
