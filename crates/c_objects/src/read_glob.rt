//! A glob, with the bits of its options.

use globset::Glob;
use std::marker::Model;

/// A glob, with the bits of the options under which it was read.
///
/// Contracts see it as the glob.
#[derive(Drop)]
pub struct ReadGlob {
    glob: Glob,
    bits: u32,
}

impl Model for ReadGlob {
    ghost use Rattle.std.specs.Prelude.{◌≡◌};
    ghost use Rattle.globset_glob.specs.GlobMatches.{GlobValue};
    ghost use Rattle.c_objects.specs.Options.{IsKnown, options_of};

    ghost Value = { GlobValue };

    ghost view = { λ r. r.glob };

    ghost invariant = { λ r. (options_of r.bits ≡ r.glob.options) × IsKnown r.bits };
}

impl ReadGlob {
    ghost use Rattle.std.specs.Prelude.{◌≡◌};
    ghost use Rattle.c_objects.specs.Options.{IsKnown, options_of};

    /// Returns the glob together with the options' bits under which it was read.
    pub fn of(glob: Glob, bits: u32) -> ReadGlob
        requires options { options_of bits ≡ glob.options }
        requires known { IsKnown bits }
        ensures { result ≡ glob }
    {
        ReadGlob { glob, bits }
    }

    /// Returns the glob.
    pub fn glob(&self) -> &Glob
        ensures { result.now ≡ self.now }
    {
        &self.glob
    }

    /// Returns the bits of the options.
    pub fn options(&self) -> u32
        ensures options { options_of result ≡ self.now.options }
        ensures known { IsKnown result }
    {
        self.bits
    }
}
