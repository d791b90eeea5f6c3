//! Why sifting stops before the end.

use std::alloc::AllocError;
use std::fmt;

/// Why [`sift`](crate::sifting::sift) stopped before the end.
#[derive(Clone, Copy, Debug, PartialEq, Eq)]
pub enum SiftFault {
    /// A read failed, or the end was not found after 2^64 - 1 reads.
    Read,
    /// A write or the flush failed, or a write accepted no bytes.
    Write,
    /// Memory ran out.
    OutOfMemory,
}

impl fmt::Display for SiftFault {
    ghost use Rattle.std.specs.Prelude.{Some};
    ghost use Rattle.globsift.specs.Texts.{sift_fault_text};

    ghost output = { λ fault. Some (sift_fault_text fault) };

    fn fmt<W: fmt::Write>(&self, f: &mut fmt::Formatter<W>) -> fmt::Result {
        f.write_str(match self {
            SiftFault::Read => "reading failed",
            SiftFault::Write => "writing failed",
            SiftFault::OutOfMemory => "out of memory",
        })
    }
}

impl std::error::Error for SiftFault {}

impl From<AllocError> for SiftFault {
    ghost use Rattle.std.specs.Prelude.{◌≡◌};
    ghost use Rattle.globsift.specs.declared.sifting.fault.SiftFault.TheVariants.{OutOfMemory};

    ghost from_gives = { λ _ fault. fault ≡ OutOfMemory };

    fn from(_error: AllocError) -> SiftFault {
        SiftFault::OutOfMemory
    }
}
