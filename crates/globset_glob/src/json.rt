//! Globs as JSON values.

ghost use Rattle.std.specs.Prelude.{◌≡◌, Err, IfOk, IfErr, IsOkUnless, Ok, map, is_none, option_map, IfSome, OnOk};
ghost use Rattle.serde_json.specs.View.{view, members_view};
ghost use Rattle.glob_text.specs.Errors.{glob_or_parse_error, out_of_memory};
ghost use Rattle.glob_text.specs.GlobMatches.{IsRead};
ghost use Rattle.glob_text.specs.ValueErrors.{IsValueErrorOf, of_kind};
ghost use Rattle.globset_glob.specs.Values.{glob_of_value, of_text, value_of_glob, glob_of_object, has_non_boolean, has_unknown_key, is_known_key, is_non_boolean, keyed_options, option_in, option_keys, options_in, with_option, with_options};
ghost use Rattle.serde_json.specs.Find.{get_member};

use crate::glob::{Glob, options_of};
use glob_syntax::Options;
use glob_text::{Error, ValueError, ValueErrorKind};
use serde_json::{Map, Value, put};
use std::alloc::{AllocError, Global};

impl Glob {
    /// Returns the glob as a JSON value. [`Glob::from_value`] reads an equal glob from it.
    ///
    /// The value is the glob's text if every option has its default. Otherwise it is an object, with the text under the key
    /// `glob` and each option that does not have its default under the option's name. Its keys are in ascending order.
    ///
    /// ```rust
    /// use globset::{Glob, GlobBuilder};
    ///
    /// let glob = GlobBuilder::new("*.rs").literal_separator(true).build(alloc)?;
    /// let value = glob.to_value()?;
    /// let text = value.to_string(alloc)?;
    /// assert_eq!(rt; text.as_str(), r#"{"glob":"*.rs","literal_separator":true}"#);
    /// assert!(rt; Glob::from_value(alloc, &value)? == glob);
    /// ```
    #[tactic(auto, using(crate::proofs::lemmas::Values::read_back))]
    pub fn to_value(&self) -> Result<Value, Error>
        ensures ok { IfOk result (λ value. view value ≡ value_of_glob self.now) }
        ensures read_back { IfOk result (λ value. glob_of_value (view value) ≡ Ok self.now) }
        ensures err { IsOkUnless result out_of_memory }
    {
        Ok(value_of(self.allocator(), self.glob(), options_of(self))?)
    }

    /// Reads a glob from a JSON value: a text, which is read under the default options, as by [`Glob::new`], or an object.
    ///
    /// An object has the glob's text under the key `glob`. It may have the name of each option as a key, with true or false
    /// under it; an option that it does not have has its default. It may have no other key.
    ///
    /// # Errors
    ///
    /// Returns the first of these errors, without an index:
    ///
    /// - [`ValueErrorKind::NotText`] if the value is neither a text nor an object with a text under `glob`;
    /// - [`ValueErrorKind::UnknownKey`] if an object has another key;
    /// - [`ValueErrorKind::NotBool`] if an option of an object is neither true nor false;
    /// - [`ValueErrorKind::Glob`] with the error of [`Glob::new`] or [`GlobBuilder::build`](crate::GlobBuilder::build) if the
    ///   text is not a glob, or if there is no memory.
    pub fn from_value(alloc: Global, value: &Value) -> Result<Glob, ValueError>
        ensures ok { IfOk result (λ g. glob_of_value (view value.now) ≡ Ok g) }
        ensures read { IfOk result IsRead }
        ensures err { IfErr result (IsValueErrorOf (glob_of_value (view value.now))) }
    {
        let (text, options) = text_and_options(value)?;
        Ok(Glob::read(alloc, options, text)?)
    }
}

/// Returns the text and the options of the glob that a JSON value stands for: a text, which has the default options, or an
/// object. Whether the text is a glob is not looked at.
///
/// Returns the first of these errors: [`ValueErrorKind::NotText`], [`ValueErrorKind::UnknownKey`],
/// [`ValueErrorKind::NotBool`].
fn text_and_options(value: &Value) -> Result<(&str, Options), ValueErrorKind>
    ensures ok { IfOk result (λ (text, options). glob_of_value (view value.now)
        ≡ of_text (glob_or_parse_error (record { text = text.now; options = options }))) }
    ensures err { IfErr result (λ kind. glob_of_value (view value.now) ≡ Err (of_kind kind)) }
{
    match value {
        Value::String(text) => Ok((text.as_str(), Options::DEFAULT)),
        Value::Object(members) => members_text_and_options(members),
        _ => Err(ValueErrorKind::NotText),
    }
}

/// Returns the text and the options of the glob that the members of an object stand for.
pub fn members_text_and_options(
    members: &Map<String, Value>,
) -> Result<(&str, Options), ValueErrorKind>
    ensures ok { IfOk result (λ (text, options). glob_of_object (members_view members.now.entries)
        ≡ of_text (glob_or_parse_error (record { text = text.now; options = options }))) }
    ensures err { IfErr result
        (λ kind. glob_of_object (members_view members.now.entries) ≡ Err (of_kind kind)) }
{
    let Some(Value::String(text)) = member(members, "glob") else {
        return Err(ValueErrorKind::NotText);
    };
    if has_unknown_key(members) {
        return Err(ValueErrorKind::UnknownKey);
    }
    match read_options(members) {
        Some(options) => Ok((text.as_str(), options)),
        None => Err(ValueErrorKind::NotBool),
    }
}

/// Returns the value under this key.
fn member<'v>(members: &'v Map<String, Value>, key: &str) -> Option<&'v Value>
    ensures { option_map (λ value. view value.now) result
        ≡ get_member key.now (members_view members.now.entries) }
{
    members.get(key)
}

/// Returns whether some key is neither `glob` nor the name of an option.
#[tactic(auto, using(crate::proofs::lemmas::Members::pass_known, crate::proofs::lemmas::Members::find_unknown))]
fn has_unknown_key(members: &Map<String, Value>) -> bool
    ensures { result ≡ has_unknown_key (members_view members.now.entries) }
{
    for (key, _) in members.iter() {
        if !is_known_key(key.as_str()) {
            return true;
        }
    }
    false
}

/// Returns whether an object may have this key.
fn is_known_key(key: &str) -> bool
    ensures { result ≡ is_known_key key.now }
{
    matches!(
        key,
        "glob"
            | "case_insensitive"
            | "literal_separator"
            | "backslash_escape"
            | "empty_alternates"
            | "allow_unclosed_class"
            | "whole_character"
    )
}

/// Returns the options of these members, or `None` if any of them is neither true nor false.
fn read_options(members: &Map<String, Value>) -> Option<Options>
    ensures options { IfSome result
        (λ options. options ≡ options_in (members_view members.now.entries)) }
    ensures booleans { is_none result ≡ has_non_boolean (members_view members.now.entries) }
{
    let default = Options::DEFAULT;
    Some(Options {
        case_insensitive: read_option(members, "case_insensitive", default.case_insensitive)?,
        literal_separator: read_option(members, "literal_separator", default.literal_separator)?,
        backslash_escape: read_option(members, "backslash_escape", default.backslash_escape)?,
        empty_alternates: read_option(members, "empty_alternates", default.empty_alternates)?,
        allow_unclosed_class: read_option(
            members,
            "allow_unclosed_class",
            default.allow_unclosed_class,
        )?,
        whole_character: read_option(members, "whole_character", default.whole_character)?,
    })
}

/// Returns the option under this key, which is `default` if there is none, or `None` if it is neither true nor false.
fn read_option(members: &Map<String, Value>, key: &str, default: bool) -> Option<bool>
    ensures option { IfSome result
        (λ on. on ≡ option_in (members_view members.now.entries) key.now default) }
    ensures boolean { is_none result ≡ is_non_boolean (members_view members.now.entries) key.now }
{
    match member(members, key) {
        Some(value) => value.as_bool(),
        None => Some(default),
    }
}

/// Returns the value of a glob with this text and these options.
#[tactic(auto, using(crate::proofs::lemmas::Values::text_of_defaults, crate::proofs::lemmas::Values::object_of_others))]
pub fn value_of(alloc: Global, text: &str, options: Options) -> Result<Value, AllocError>
    ensures { IfOk result
        (λ value. view value ≡ value_of_glob (record { text = text.now; options = options })) }
{
    let text = Value::String(String::from_str(alloc, text)?);
    if options == Options::DEFAULT {
        return Ok(text);
    }
    let mut members = Map::new(alloc);
    put(&mut members, alloc, "glob", text)?;
    put_options(&mut members, alloc, options)?;
    Ok(Value::Object(members))
}

/// Adds each option that does not have its default.
fn put_options(
    members: &mut Map<String, Value>,
    alloc: Global,
    options: Options,
) -> Result<(), AllocError>
    ensures { OnOk result
        (members_view members.new.entries
        ≡ with_options (keyed_options options) (members_view members.old.entries)) }
{
    let options = keyed(options);
    let defaults = keyed(Options::DEFAULT);
    for i in 0..options.len() {
        let (key, value) = options[i];
        put_option(members, alloc, key, value, defaults[i].1)?;
    }
    Ok(())
}

/// Adds an option, unless it has its default.
fn put_option(
    members: &mut Map<String, Value>,
    alloc: Global,
    key: &str,
    value: bool,
    default: bool,
) -> Result<(), AllocError>
    ensures { OnOk result
        (members_view members.new.entries
        ≡ with_option (record { key = key.now; value = value; default = default })
        (members_view members.old.entries)) }
{
    if value == default {
        return Ok(());
    }
    put(members, alloc, key, Value::Bool(value))
}

/// Returns the options, each with its key.
fn keyed(options: Options) -> [(&'static str, bool); 6]
    ensures keys { map (λ row. row.0.now) result ≡ option_keys }
    ensures values { map (λ row. row.1) result
        ≡ map (λ option. option.value) (keyed_options options) }
{
    [
        ("case_insensitive", options.case_insensitive),
        ("literal_separator", options.literal_separator),
        ("backslash_escape", options.backslash_escape),
        ("empty_alternates", options.empty_alternates),
        ("allow_unclosed_class", options.allow_unclosed_class),
        ("whole_character", options.whole_character),
    ]
}
