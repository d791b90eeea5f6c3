//! Reads a glob's text as tokens, or as the error of a glob.

ghost use Rattle.std.specs.Prelude.{◌≡◌, ◌*◌, ◌≤◌, length, Ok, IfOk, IfErr};
ghost use Rattle.std.specs.Str.{chars};
ghost use Rattle.glob_syntax.specs.Reading.{reading};
ghost use Rattle.glob_syntax.specs.FlatTokens.{IsNested};
ghost use Rattle.glob_syntax.specs.StatesPerByte.{states_per_byte};
ghost use Rattle.glob_syntax.specs.Views.{flats, tokens_of};
ghost use Rattle.glob_syntax.specs.inner.Weight.{weight};
ghost use Rattle.glob_syntax.specs.inner.WellFormed.{AreWellFormed};
ghost use Rattle.glob_text.specs.Errors.{IsParseErrorOf};

use crate::error::Error;
use glob_syntax::{Options, ReadError, Token, read_tokens};
use std::alloc::Global;

/// Returns the tokens of a glob's text, in time and memory linear in the length of the text.
///
/// Fails if the text is not a glob, or if memory runs out. The error of a text holds the text, and the kind and the offset of the
/// first error in it.
pub fn tokens_of_text(alloc: Global, options: Options, text: &str) -> Result<Vec<Token>, Error>
    ensures read { IfOk result (λ v. reading options (chars text.now) ≡ Ok (tokens_of v.items)) }
    ensures nested { IfOk result (λ v. IsNested (flats v.items)) }
    ensures well_formed { IfOk result (λ v. AreWellFormed (tokens_of v.items)) }
    ensures weight { IfOk result
        (λ v. weight options (tokens_of v.items) ≤ states_per_byte options * length text.now) }
    ensures err { IfErr result (IsParseErrorOf options text.now) }
{
    match read_tokens(alloc, options, text) {
        Ok(tokens) => Ok(tokens),
        Err(ReadError::Memory) => Err(Error::out_of_memory()),
        Err(ReadError::Syntax(parse_error_kind)) => Err(Error::parse_error(
            alloc,
            options,
            text,
            parse_error_kind,
        )),
    }
}
