// Why bytes have no tokens.
use jr_base::OutOfMemory;
use std::alloc::{AllocError, AllocFailed};
use thiserror::Error;

/// Why bytes have no tokens. Each of the first five holds the first place, in bytes, where no gap and no token
/// starts, and names the shape that stands there.
#[derive(Clone, Copy, Debug, PartialEq, Eq, Error)]
pub enum LexFault {
    /// Anything that is none of the shapes below.
    #[error("BadByte")]
    BadByte(u32),
    /// `/*` with no `*/` behind it (JLS 3.7).
    #[error("OpenComment")]
    OpenComment(u32),
    /// A quote that starts no literal (JLS 3.10.4, 3.10.5).
    #[error("OpenLiteral")]
    OpenLiteral(u32),
    /// A quote where a backslash starts no escape before the literal closes or the line ends (JLS 3.10.6).
    #[error("BadEscape")]
    BadEscape(u32),
    /// A digit where no integer stands, or a point before a digit (JLS 3.10.1).
    #[error("BadNumber")]
    BadNumber(u32),
    /// The bytes are not UTF-8; the longest front that is has this length.
    #[error("NotUtf8")]
    NotUtf8(u32),
    #[error("OutOfMemory")]
    OutOfMemory,
}

impl From<AllocError> for LexFault {
    ghost use Rattle.std.specs.Prelude.{◌≡◌};
    ghost use Rattle.jr_lex.specs.declared.fault.LexFault.TheVariants.{OutOfMemory};

    ghost from_gives = { λ _ fault. fault ≡ OutOfMemory };

    fn from(_: AllocError) -> LexFault {
        LexFault::OutOfMemory
    }
}

impl<T: Drop> From<AllocFailed<T>> for LexFault {
    ghost use Rattle.std.specs.Prelude.{◌≡◌};
    ghost use Rattle.jr_lex.specs.declared.fault.LexFault.TheVariants.{OutOfMemory};

    ghost from_gives = { λ _ fault. fault ≡ OutOfMemory };

    fn from(_: AllocFailed<T>) -> LexFault {
        LexFault::OutOfMemory
    }
}

impl From<OutOfMemory> for LexFault {
    ghost use Rattle.std.specs.Prelude.{◌≡◌};
    ghost use Rattle.jr_lex.specs.declared.fault.LexFault.TheVariants as variants;

    ghost from_gives = { λ _ fault. fault ≡ variants.OutOfMemory };

    fn from(_: OutOfMemory) -> LexFault {
        LexFault::OutOfMemory
    }
}
