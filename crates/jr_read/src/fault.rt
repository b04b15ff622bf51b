// Why files are no program.
use jr_base::{CuId, OutOfMemory, Size};
use jr_lex::LexFault;
use jr_parse::ParseFault;
use std::alloc::{AllocError, AllocFailed};

/// Why files are no program. Units are counted from 0, those of the prelude first.
#[derive(Clone, Copy, Debug, PartialEq, Eq)]
pub enum ReadFault {
    /// Of these sizes the first that passes its limit: files, path, file, total, and, where all files have tokens, tokens.
    TooLarge(Size),
    /// The first unit whose bytes are no tokens (JLS 3), or have an escape in a comment that may change what is a comment (JLS 3.3), and its fault.
    Lex {
        cu: CuId,
        fault: LexFault,
    },
    /// The first unit whose tokens are no unit (JLS 7.3), its fault, which counts tokens, and the offset of that token, or of the end.
    Parse {
        cu: CuId,
        fault: ParseFault,
        at: u32,
    },
    /// An allocation failed.
    OutOfMemory,
}

impl From<OutOfMemory> for ReadFault {
    ghost use Rattle.std.specs.Prelude.{◌≡◌};
    ghost use Rattle.jr_read.specs.declared.fault.ReadFault.TheVariants.{OutOfMemory};

    ghost from_gives = { λ _ e. e ≡ OutOfMemory };

    fn from(_: OutOfMemory) -> Self {
        ReadFault::OutOfMemory
    }
}

impl From<AllocError> for ReadFault {
    ghost use Rattle.std.specs.Prelude.{◌≡◌};
    ghost use Rattle.jr_read.specs.declared.fault.ReadFault.TheVariants.{OutOfMemory};

    ghost from_gives = { λ _ e. e ≡ OutOfMemory };

    fn from(_: AllocError) -> Self {
        ReadFault::OutOfMemory
    }
}

impl<T: Drop> From<AllocFailed<T>> for ReadFault {
    ghost use Rattle.std.specs.Prelude.{◌≡◌};
    ghost use Rattle.jr_read.specs.declared.fault.ReadFault.TheVariants.{OutOfMemory};

    ghost from_gives = { λ _ e. e ≡ OutOfMemory };

    fn from(_: AllocFailed<T>) -> Self {
        ReadFault::OutOfMemory
    }
}
