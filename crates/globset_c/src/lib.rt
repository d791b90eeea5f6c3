//! Globs and sets of globs for C. `bindings/c/globset_raw.h` says what C has to promise, function by function.
//!
//! Each function that C calls is here, with its contract. What it does is in `c_objects`.
#![tactic(auto)]

ghost use Rattle.std.specs.Prelude.{◌≡◌, IsSome};

mod answers;
mod builders;
mod error;
mod globs;
mod ignore_lines;
mod ignored;
mod ignored_many;
mod ignoring;
mod matchers;
mod plain;
mod relations;
mod searcher_many;
mod searchers;
mod sets;
mod unreachable_rules;

use c_objects::owned::Owned;

/// 0.4.21, the version of the Rust crate whose globs these are: 1,000,000 times the first number, 1,000 times the second, and
/// the third.
const VERSION: u32 = 4_021;

/// The number of this interface, which grows when a function of it changes or goes.
const INTERFACE: u32 = 1;

/// Returns the version of the Rust crate whose globs these are.
#[unsafe(no_mangle)]
pub extern "C" fn globset_version() -> u32
    ensures { result ≡ 4021 }
{
    VERSION
}

/// Returns the number of this interface.
#[unsafe(no_mangle)]
pub extern "C" fn globset_interface() -> u32
    ensures { result ≡ 1 }
{
    INTERFACE
}

/// Frees an object of any kind.
#[unsafe(no_mangle)]
pub extern "C" fn globset_raw_free(object: Owned)
    requires owned { IsSome object.object }
{
    drop(object.into_box());
}
